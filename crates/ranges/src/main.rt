// Answers a script of tunnels and questions. The script has blocks of lines, with an empty line between two blocks.
// The first line of a block makes a tunnel; `limits` lines lay daily limits over it, two at most; the other lines
// start days, tell trades and ask.
#![tactic(auto)]

use anyhow::{Context, bail, ensure};
use band::{Band, BandTunnel};
use daily::DailyLimits;
use mean::MeanTunnel;
use outside::LastPriceTunnel;
use rules::Refusal;
use std::error::Error;
use std::io::Read;
use std::str::{FromStr, SplitWhitespace};
use tunnel::{ToldTrade, Tunnel};

mod outside;
#[cfg(test)]
mod tests;

// What a line of a block says.
#[derive(Clone, Copy)]
enum Line {
    Band {
        tick: u32,
        buy: (i32, i32),
        sell: (i32, i32),
        auction: (i32, i32),
    },
    Mean {
        tick: u32,
        half_width: u32,
        settlement: u32,
    },
    Last {
        width: u32,
        first: u32,
    },
    Limits {
        low: u32,
        high: u32,
    },
    Start,
    Tell(ToldTrade),
    Ask {
        base: u32,
        second: u32,
    },
}

fn word<'a>(words: &mut SplitWhitespace<'a>) -> anyhow::Result<&'a str> {
    words.next().context("a line is cut short")
}

fn number<N: FromStr>(words: &mut SplitWhitespace) -> anyhow::Result<N>
where
    N::Err: Error,
{
    Ok(word(words)?.parse::<N>()?)
}

fn distances(words: &mut SplitWhitespace) -> anyhow::Result<(i32, i32)> {
    Ok((number(words)?, number(words)?))
}

impl FromStr for Line {
    type Err = anyhow::Error;

    fn from_str(line: &str) -> anyhow::Result<Line> {
        let words = &mut line.split_whitespace();
        let line = match word(words)? {
            "band" => Line::Band {
                tick: number(words)?,
                buy: distances(words)?,
                sell: distances(words)?,
                auction: distances(words)?,
            },
            "mean" => Line::Mean {
                tick: number(words)?,
                half_width: number(words)?,
                settlement: number(words)?,
            },
            "last" => Line::Last {
                width: number(words)?,
                first: number(words)?,
            },
            "limits" => Line::Limits {
                low: number(words)?,
                high: number(words)?,
            },
            "start" => Line::Start,
            "tell" => Line::Tell(ToldTrade {
                price: number(words)?,
                quantity: number(words)?,
                second: number(words)?,
            }),
            "ask" => Line::Ask {
                base: number(words)?,
                second: number(words)?,
            },
            _ => bail!("a line begins with no known word"),
        };
        ensure!(words.next().is_none(), "a line has too many words");
        Ok(line)
    }
}

fn refused(rt: &impl Print, refusal: Refusal) -> anyhow::Result<()> {
    let number = refusal.number();
    println!(rt; "refused {number}")?;
    Ok(())
}

fn show<T: Tunnel>(rt: &impl Print, tunnel: &T, base: u32, second: u32) -> anyhow::Result<()> {
    let (buy_low, buy_high) = tunnel.buy_range(base, second);
    let (sell_low, sell_high) = tunnel.sell_range(base, second);
    let (auction_low, auction_high) = tunnel.auction_range(base, second);
    let tally = tunnel.tally();
    println!(rt;
        "buy {buy_low} {buy_high} sell {sell_low} {sell_high} auction {auction_low} {auction_high} tally {tally}"
    )?;
    Ok(())
}

// Starts days, tells and asks as the lines behind the first one say.
fn answer<T: Tunnel + Drop>(rt: &impl Print, mut tunnel: T, block: &str) -> anyhow::Result<()> {
    for line in block.lines().skip(1) {
        match line.parse::<Line>()? {
            Line::Start => tunnel.start_day(),
            Line::Tell(trade) => tunnel.tell(trade),
            Line::Ask { base, second } => show(rt, &tunnel, base, second)?,
            Line::Limits { .. } => {}
            _ => bail!("a block has two tunnels"),
        }
    }
    Ok(())
}

// Limits to lay over a tunnel, the lower layer first.
// An enum and no `Vec`, so that to have layers takes no memory that there might not be.
#[derive(Clone, Copy)]
enum Layers {
    None,
    One(DailyLimits),
    Two(DailyLimits, DailyLimits),
}

impl Layers {
    fn with(self, limits: DailyLimits) -> anyhow::Result<Layers> {
        match self {
            Layers::None => Ok(Layers::One(limits)),
            Layers::One(below) => Ok(Layers::Two(below, limits)),
            Layers::Two(_, _) => bail!("a block has three layers"),
        }
    }
}

// The limits of the block that are not refused.
fn layers_of(rt: &impl Print, block: &str) -> anyhow::Result<Layers> {
    let mut layers = Layers::None;
    for line in block.lines() {
        let Line::Limits { low, high } = line.parse::<Line>()? else {
            continue;
        };
        // A refusal is printed and the block goes on, so it is no error for `?`.
        match DailyLimits::new(low, high) {
            Ok(limits) => layers = layers.with(limits)?,
            Err(refusal) => refused(rt, refusal)?,
        }
    }
    Ok(layers)
}

// Carries out the block over its tunnel, with its limits laid over it, or tells why there is no tunnel.
fn run_over<T: Tunnel + Drop>(
    rt: &impl Print,
    tunnel: Result<T, Refusal>,
    block: &str,
) -> anyhow::Result<()> {
    // A refusal is printed and is no error, so `?` does not fit.
    let tunnel = match tunnel {
        Ok(tunnel) => tunnel,
        Err(refusal) => return refused(rt, refusal),
    };
    match layers_of(rt, block)? {
        Layers::None => answer(rt, tunnel, block),
        Layers::One(limits) => answer(rt, limits.over(tunnel), block),
        Layers::Two(below, above) => answer(rt, above.over(below.over(tunnel)), block),
    }
}

fn band((low, high): (i32, i32)) -> Result<Band, Refusal> {
    Band::new(low, high)
}

fn band_tunnel(
    tick: u32,
    buy: (i32, i32),
    sell: (i32, i32),
    auction: (i32, i32),
) -> Result<BandTunnel, Refusal> {
    BandTunnel::new(tick, band(buy)?, band(sell)?, band(auction)?)
}

fn run_block(rt: &impl Print, block: &str) -> anyhow::Result<()> {
    let Some(first) = block.lines().next() else {
        return Ok(());
    };
    match first.parse::<Line>()? {
        Line::Band {
            tick,
            buy,
            sell,
            auction,
        } => run_over(rt, band_tunnel(tick, buy, sell, auction), block),
        Line::Mean {
            tick,
            half_width,
            settlement,
        } => run_over(rt, MeanTunnel::new(tick, half_width, settlement), block),
        Line::Last { width, first } => run_over(rt, Ok(LastPriceTunnel::new(width, first)), block),
        _ => bail!("a block begins with no tunnel"),
    }
}

fn main(rt: HostRuntime) -> anyhow::Result<()> {
    let mut script = String::new(rt.alloc());
    rt.stdin().read_to_string(&mut script)?;
    for block in script.as_str().split("\n\n") {
        run_block(&rt, block)?;
    }
    Ok(())
}
