//! What no contract says: tests of calls of the system and of answers that no command prints; and a program for trials and
//! measurements. Its first word is a module: `texts` and `tosses` are benchmarks (see bench/), and `world` writes the
//! bases and packets that a replay leaves, for trials/. The other words are those of the module. Without words each runs
//! once on a small input. It is proved to be safe and to end, and no more. Begin with `run` and with `real_disk`.
#![tactic(auto)]

#[cfg(test)]
mod bases;
#[cfg(test)]
mod fault_lines;
#[cfg(test)]
mod on_real_files;
#[cfg(test)]
mod packets;
#[cfg(test)]
mod real_disk;
#[cfg(test)]
mod system_files;
mod texts;
mod tosses;
mod world;

use anyhow::{Result, bail};
use std::env;

fn run(rt: &HostRuntime, words: &[String]) -> Result<()> {
    match words {
        [] => {
            texts::run(rt, &[])?;
            tosses::run(rt, &[])?;
            world::run(rt, &[])
        }
        [name, others @ ..] => match name.as_str() {
            "texts" => texts::run(rt, others),
            "tosses" => tosses::run(rt, others),
            "world" => world::run(rt, others),
            _ => bail!("texts, tosses or world"),
        },
    }
}

fn main(rt: HostRuntime) -> Result<()> {
    let mut words = Vec::new(rt.alloc());
    for word in env::args(&rt)?.skip(1) {
        words.push(word)?;
    }
    run(&rt, &words)
}
