// The tunnels, at worked cases and at their edges.
use crate::outside::LastPriceTunnel;
use band::{Band, BandTunnel};
use daily::DailyLimits;
use mean::MeanTunnel;
use rules::{GREATEST_TALLY, Refusal};
use std::test::Fail;
use tunnel::retell::retell;
use tunnel::{EVERY_PRICE, NO_PRICE, ToldTrade, Tunnel};

fn banded(tick: u32) -> Result<BandTunnel, Refusal> {
    BandTunnel::new(
        tick,
        Band::new(-150, 50)?,
        Band::new(-50, 150)?,
        Band::new(-20, 20)?,
    )
}

fn trade(price: u32, quantity: u32, second: u32) -> ToldTrade {
    ToldTrade {
        price,
        quantity,
        second,
    }
}

// Three at 1000 in second 3 and one at 1010 in second 14, around a settlement price of 900.
fn averaged() -> Result<MeanTunnel, Refusal> {
    let mut tunnel = MeanTunnel::new(1, 14, 900)?;
    tunnel.tell(trade(1000, 3, 3));
    tunnel.tell(trade(1010, 1, 14));
    Ok(tunnel)
}

#[test]
fn bands_lie_around_the_base(rt: HostRuntime) -> Result<(), Fail> {
    let tunnel = banded(1)?;
    assert_eq!(rt; tunnel.buy_range(1000, 0), (850, 1050));
    assert_eq!(rt; tunnel.sell_range(1000, 0), (950, 1150));
    assert_eq!(rt; tunnel.auction_range(1000, 0), (980, 1020));
    Ok(())
}

#[test]
fn ends_are_rounded_outward_to_the_tick_negative_ones_too(rt: HostRuntime) -> Result<(), Fail> {
    let sevens = banded(7)?;
    assert_eq!(rt; sevens.buy_range(1, 0), (-154, 56));
    assert_eq!(rt; sevens.auction_range(1000, 0), (980, 1022));
    let thousands = banded(1000)?;
    assert_eq!(rt; thousands.buy_range(1, 0), (-1000, 1000));
    assert_eq!(rt; thousands.sell_range(2000, 0), (1000, 3000));
    assert_eq!(rt;
        thousands.auction_range(10_000_000, 100_000),
        (9_999_000, 10_001_000)
    );
    Ok(())
}

#[test]
fn the_mean_is_of_the_period_before(rt: HostRuntime) -> Result<(), Fail> {
    let tunnel = averaged()?;
    assert_eq!(rt; tunnel.auction_range(1000, 14), (887, 913));
    assert_eq!(rt; tunnel.auction_range(1000, 15), (989, 1016));
    assert_eq!(rt; tunnel.auction_range(1000, 29), (989, 1016));
    assert_eq!(rt; tunnel.auction_range(1000, 31), (997, 1023));
    assert_eq!(rt; tunnel.buy_range(1000, 15), EVERY_PRICE);
    assert_eq!(rt; tunnel.sell_range(1000, 15), EVERY_PRICE);
    Ok(())
}

#[test]
fn late_trades_and_late_questions_count_as_of_the_latest_period(
    rt: HostRuntime,
) -> Result<(), Fail> {
    let mut tunnel = averaged()?;
    tunnel.tell(trade(1020, 5, 16));
    assert_eq!(rt; tunnel.auction_range(1000, 3), (989, 1016));
    tunnel.tell(trade(2000, 5, 2));
    assert_eq!(rt; tunnel.auction_range(1000, 3), (989, 1016));
    assert_eq!(rt; tunnel.auction_range(1000, 30), (1497, 1523));
    assert_eq!(rt; tunnel.auction_range(1000, 45), (1987, 2013));
    Ok(())
}

#[test]
fn a_day_starts_without_trades(rt: HostRuntime) -> Result<(), Fail> {
    let mut tunnel = averaged()?;
    tunnel.start_day();
    assert_eq!(rt; tunnel.tally(), 0);
    assert_eq!(rt; tunnel.auction_range(1000, 15), (887, 913));
    tunnel.tell(trade(500, 1, 0));
    assert_eq!(rt; tunnel.auction_range(1000, 15), (487, 513));
    Ok(())
}

#[test]
fn the_tally_stays_at_its_greatest(rt: HostRuntime) -> Result<(), Fail> {
    let mut tunnel = averaged()?;
    tunnel.start_day();
    for _ in 0..10_000_000u32 {
        tunnel.tell(trade(10_000_000, 10_000, 99_980));
    }
    assert_eq!(rt; tunnel.tally(), GREATEST_TALLY);
    tunnel.tell(trade(1, 1, 99_980));
    assert_eq!(rt; tunnel.tally(), GREATEST_TALLY);
    assert_eq!(rt; tunnel.auction_range(1, 99_980), (887, 913));
    assert_eq!(rt; tunnel.auction_range(1, 99_990), (9_999_987, 10_000_013));
    assert_eq!(rt; tunnel.auction_range(1, 100_000), (9_999_987, 10_000_013));
    Ok(())
}

#[test]
fn a_trade_outside_the_limits_changes_nothing(rt: HostRuntime) -> Result<(), Fail> {
    let mut tunnel = averaged()?;
    tunnel.tell(trade(0, 1, 20));
    tunnel.tell(trade(10_000_001, 1, 20));
    tunnel.tell(trade(1000, 0, 20));
    tunnel.tell(trade(1000, 10_001, 20));
    tunnel.tell(trade(1000, 1, 100_001));
    assert_eq!(rt; tunnel.tally(), 4);
    assert_eq!(rt; tunnel.auction_range(1000, 3), (887, 913));
    assert_eq!(rt; tunnel.auction_range(1000, 15), (989, 1016));
    assert_eq!(rt; tunnel.auction_range(1000, 31), (997, 1023));
    Ok(())
}

#[test]
fn a_question_outside_the_limits_gets_no_price(rt: HostRuntime) -> Result<(), Fail> {
    let tunnel = averaged()?;
    assert_eq!(rt; tunnel.auction_range(0, 15), NO_PRICE);
    assert_eq!(rt; tunnel.auction_range(10_000_001, 15), NO_PRICE);
    assert_eq!(rt; tunnel.auction_range(1000, 100_001), NO_PRICE);
    assert_eq!(rt; tunnel.buy_range(0, 15), NO_PRICE);
    let limited = DailyLimits::new(1, 2)?.over(banded(1)?);
    assert_eq!(rt; limited.buy_range(1000, 100_001), NO_PRICE);
    assert_eq!(rt; limited.sell_range(0, 0), NO_PRICE);
    assert_eq!(rt; limited.auction_range(10_000_001, 0), NO_PRICE);
    Ok(())
}

#[test]
fn limits_over_limits_over_the_mean(rt: HostRuntime) -> Result<(), Fail> {
    let mut tunnel = DailyLimits::new(800, 1050)?.over(DailyLimits::new(900, 1100)?.over(
        averaged()?,
    ));
    assert_eq!(rt; tunnel.buy_range(1000, 15), (900, 1050));
    assert_eq!(rt; tunnel.sell_range(1000, 15), (900, 1050));
    assert_eq!(rt; tunnel.auction_range(1000, 15), (989, 1016));
    tunnel.tell(trade(1000, 6, 20));
    assert_eq!(rt; tunnel.tally(), 10);
    tunnel.start_day();
    assert_eq!(rt; tunnel.tally(), 0);
    Ok(())
}

#[test]
fn a_band_or_tick_outside_its_limits_is_refused(rt: HostRuntime) {
    let refused = Some(Refusal::TunnelOutsideLimits);
    assert_eq!(rt; Band::new(-1_000_001, 0).err(), refused);
    assert_eq!(rt; Band::new(1, 1).err(), refused);
    assert_eq!(rt; Band::new(-1, -1).err(), refused);
    assert_eq!(rt; Band::new(0, 1_000_001).err(), refused);
    assert_eq!(rt; Band::new(-1_000_000, 1_000_000).err(), None);
    assert_eq!(rt; banded(0).err(), refused);
    assert_eq!(rt; banded(1001).err(), refused);
}

#[test]
fn a_mean_tunnel_outside_its_limits_is_refused(rt: HostRuntime) {
    let refused = Some(Refusal::TunnelOutsideLimits);
    assert_eq!(rt; MeanTunnel::new(0, 1, 1).err(), refused);
    assert_eq!(rt; MeanTunnel::new(1, 0, 1).err(), refused);
    assert_eq!(rt; MeanTunnel::new(1, 1_000_001, 1).err(), refused);
    assert_eq!(rt; MeanTunnel::new(1, 1, 0).err(), refused);
    assert_eq!(rt; MeanTunnel::new(1, 1, 10_000_001).err(), refused);
    assert_eq!(rt; MeanTunnel::new(1000, 1_000_000, 10_000_000).err(), None);
}

#[test]
fn limits_outside_their_limits_are_refused_and_cost_no_tunnel(rt: HostRuntime) -> Result<(), Fail> {
    let refused = Some(Refusal::TunnelOutsideLimits);
    let tunnel = averaged()?;
    assert_eq!(rt; DailyLimits::new(0, 1).err(), refused);
    assert_eq!(rt; DailyLimits::new(2, 1).err(), refused);
    assert_eq!(rt; DailyLimits::new(1, 10_000_001).err(), refused);
    let limited = DailyLimits::new(1, 10_000_000)?.over(tunnel);
    assert_eq!(rt; limited.tally(), 4);
    Ok(())
}

#[test]
fn trades_are_told_again_to_any_tunnel(rt: HostRuntime) {
    let mut tunnel = LastPriceTunnel::new(5, 100);
    retell(
        &mut tunnel,
        &[trade(50, 7, 1), trade(0, 7, 1), trade(60, 8, 2)],
    );
    assert_eq!(rt; tunnel.tally(), 15);
    assert_eq!(rt; tunnel.auction_range(1, 2), (55, 65));
}
