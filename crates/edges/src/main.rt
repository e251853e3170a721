// Lists each tape of the bundle on standard input: a row of tapes, each behind its length in four bytes.
#![tactic(auto)]

ghost use Rattle.std.specs.Prelude.{◌<◌, length, IfSome};
ghost use Rattle.std.specs.Iterator.{at_most};

use anyhow::anyhow;
use std::io::{Read, Write};
use tape::listing::listing;

#[cfg(test)]
mod tests;

// The first tape of a bundle, and what follows it.
fn split_tape(bundle: &[u8]) -> Option<(&[u8], &[u8])>
    ensures { IfSome result (λ parts. length parts.1.now < length bundle.now) }
{
    let (length, rest) = bundle.split_first_chunk::<4>()?;
    // With `as`: there is no `From` of a u32 for a usize.
    rest.split_at_checked(u32::from_be_bytes(*length) as usize)
}

// The tapes of a bundle, and an error at the end where the bundle is cut short.
#[derive(Drop)]
struct Tapes<'a> {
    bundle: &'a [u8],
}

impl<'a> Iterator for Tapes<'a> {
    type Item = anyhow::Result<&'a [u8]>;

    ghost remaining = { λ tapes. at_most (length tapes.bundle.now) };

    fn next(&mut self) -> Option<anyhow::Result<&'a [u8]>> {
        if self.bundle.is_empty() {
            return None;
        }
        let Some((tape, rest)) = split_tape(self.bundle) else {
            self.bundle = &[];
            return Some(Err(anyhow!("the bundle is cut short")));
        };
        self.bundle = rest;
        Some(Ok(tape))
    }
}

fn list_all(rt: &HostRuntime, bundle: &[u8]) -> anyhow::Result<()> {
    for (number, tape) in (Tapes { bundle }).enumerate() {
        let text = listing(rt.alloc(), tape?)?;
        println!(rt; "-- {number}")?;
        rt.stdout().write_all(text.as_slice())?;
    }
    Ok(())
}

fn run(rt: &HostRuntime) -> anyhow::Result<()> {
    let mut bundle = Vec::new(rt.alloc());
    rt.stdin().read_to_end(&mut bundle)?;
    list_all(rt, bundle.as_slice())
}

fn main(rt: HostRuntime) -> anyhow::Result<()> {
    run(&rt)
}
