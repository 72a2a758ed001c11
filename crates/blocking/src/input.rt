// The study of a dataset that has passed the tests, as the search is given it.
ghost use Rattle.std.specs.Prelude.{◌≡◌};
ghost use Rattle.promise.specs.Promise.{meeting};
ghost use Rattle.promise.specs.Met.{met};
ghost use Rattle.validity.specs.View.{seen};
ghost use Rattle.access.specs.Passed.{Passed};

use promise::tides::Tides;
use radius_theory::input::Study;
use study::Dataset;
use validity::view::View;

// Its tides, and the distances between them.
pub fn study_of<'a>(view: View<'a>) -> Study<'a>
    requires { Passed (seen view) }
    ensures n { result.tides.n ≡ view.entry.dataset.n }
    ensures distances { result.distances.now ≡ view.entry.distances.now }
    ensures met { met result.tides ≡ meeting view.entry.dataset.minima view.entry.dataset.n view.entry.settings.now }
{
    let Dataset { n, minima, .. } = view.dataset;
    let tides = Tides {
        n,
        settings: view.settings,
        minima,
    };
    Study {
        tides,
        distances: view.distances,
    }
}
