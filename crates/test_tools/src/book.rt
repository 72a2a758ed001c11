// Datasets to try the calls on.
use study::{Dataset, MAX_USERS, Minima, Refusal};
use validity::view::View;

// A record and memory of its own, each part of it three places longer than it need be.
#[derive(Drop)]
pub struct Book {
    pub dataset: Dataset,
    pub distances: [u32; 14403],
    pub settings: [u8; 123],
}

impl Book {
    // A record that is no dataset's, and memory that was never cleared.
    pub fn nonsense() -> Book {
        Book {
            dataset: Dataset {
                k: 0,
                n: 300,
                minima: Minima { b0: 0, b: [9; 8] },
                withdrawn: [7; MAX_USERS],
            },
            distances: [7; 14403],
            settings: [9; 123],
        }
    }

    // What Open leaves of nonsense.
    pub fn opened(k: u8) -> Result<Book, Refusal> {
        let mut book = Book::nonsense();
        dataset::open(
            &mut book.dataset,
            &mut book.distances,
            &mut book.settings,
            k,
        )?;
        Ok(book)
    }

    pub fn view(&self) -> View<'_> {
        View {
            dataset: self.dataset,
            distances: &self.distances,
            settings: &self.settings,
        }
    }

    pub fn set_minima(&mut self, minima: Minima) -> Result<(), Refusal> {
        dataset::set_minima(&mut self.dataset, &self.distances, &self.settings, minima)
    }

    pub fn enter(&mut self, setting: u8, row: &[u32]) -> Result<(), Refusal> {
        dataset::enter(
            &mut self.dataset,
            &mut self.distances,
            &mut self.settings,
            setting,
            row,
        )
    }

    pub fn withdraw(&mut self, user: u8, tide: u8) -> Result<(), Refusal> {
        dataset::withdraw(
            &mut self.dataset,
            &mut self.distances,
            &mut self.settings,
            user,
            tide,
        )
    }

    pub fn read(&mut self, file: &[u8]) -> Result<(), Refusal> {
        study_file::read(
            &mut self.dataset,
            &mut self.distances,
            &mut self.settings,
            file,
        )
    }
}
