//! Times calls of the libraries, for scripts of bench/. The first word says which, and with none it does nothing: `certificates`, `frames`,
//! `names`, `server` and `tree` as the scripts of these names or `wire` make figures of them, `products` for `field`, and `repair` for
//! `parity` and `repair`.
#![tactic(auto)]

mod certificates;
mod frames;
mod names;
mod products;
mod repairs;
mod servers;
mod trees;

use certificates::measure_certificates;
use frames::measure_frames;
use names::measure_names;
use products::measure_products;
use repairs::measure_repairs;
use servers::measure_servers;
use std::env;
use trees::measure_trees;

fn main(rt: HostRuntime) -> Result<(), anyhow::Error> {
    let mut words = env::args(&rt)?.skip(1);
    let Some(word) = words.next() else {
        return Ok(());
    };
    drop(words);
    let timed = measure(&rt, word.as_str());
    drop(word);
    timed
}

fn measure(rt: &HostRuntime, what: &str) -> Result<(), anyhow::Error> {
    match what {
        "certificates" => measure_certificates(rt),
        "frames" => measure_frames(rt),
        "names" => measure_names(rt),
        "products" => measure_products(rt),
        "repair" => measure_repairs(rt),
        "server" => measure_servers(rt),
        "tree" => measure_trees(rt),
        _ => Ok(()),
    }
}
