// The trades of a day, told from its start.
ghost use Rattle.tunnel.specs.Trades.{Told, TallyIsWhatCounted};

use crate::meaning::Tunnel;
use crate::trade::ToldTrade;

// Starts the day and tells the trades in their order, as after a break in a session.
// The clause `tally_is_what_counted` is of all tellings, whoever makes them: from a day's start on, the tally is the quantity of the
// trades that count.
pub fn retell<T: Tunnel>(tunnel: &mut T, trades: &[ToldTrade])
    ensures told { (begun : T) × (T.Tunnel.starts tunnel.old begun) × Told T.Tunnel.tells begun trades.now tunnel.new }
    ensures tally_is_what_counted { TallyIsWhatCounted T.Tunnel.tally T.Tunnel.starts T.Tunnel.tells }
{
    tunnel.start_day();
    tell_all(tunnel, trades);
}

// Tells the trades in their order.
#[tactic(auto, using(crate::proofs::Telling::told_next))]
fn tell_all<T: Tunnel>(tunnel: &mut T, trades: &[ToldTrade])
    ensures told { Told T.Tunnel.tells tunnel.old trades.now tunnel.new }
    ensures tally_is_what_counted { TallyIsWhatCounted T.Tunnel.tally T.Tunnel.starts T.Tunnel.tells }
{
    for &trade in trades {
        tunnel.tell(trade);
    }
}
