// Document 01's cases and studies for document 02, 2.6, through the calls; lent records, and the part that Centres hands back; and Block beside a
// plain blocker for up to seven tides. Each group prints how many of its answers and places came out as expected.
#![tactic(auto)]

mod calls;
mod cases;
mod comparing;
mod lent;
mod part;

use std::io;

fn main(rt: HostRuntime) -> io::Result<()> {
    let mut out = rt.stdout();
    cases::case_1().print(&mut out, "case 1")?;
    cases::case_2().print(&mut out, "case 2")?;
    cases::case_3().print(&mut out, "case 3")?;
    cases::case_4().print(&mut out, "case 4")?;
    cases::case_5().print(&mut out, "case 5")?;
    cases::case_6().print(&mut out, "case 6")?;
    calls::case_7().print(&mut out, "case 7")?;
    calls::case_8().print(&mut out, "case 8")?;
    calls::case_9().print(&mut out, "case 9")?;
    cases::nearest_first().print(&mut out, "nearest first")?;
    lent::block_trials().print(&mut out, "lent records")?;
    lent::tariff_trials().print(&mut out, "lent records of the tariff")?;
    part::trials().print(&mut out, "returned part")?;
    comparing::trials(6000).print(&mut out)
}
