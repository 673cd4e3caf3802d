// Which limit of document 01 a setup breaks first, so that a shop's message can name it.
ghost use Rattle.std.specs.Prelude.{◌≡◌};
ghost use Rattle.setup.specs.Faults.{first_broken, axis_limits, travel_limits, place_limits, origin_limits, number_limits, fault_of};

use crate::{
    Axes, Axis, Fault, OFFSET_LIMIT, Offset, Setup, TRAVEL_LIMIT, feed_fits, is_between, is_within,
    point_of, range_fits, speed_fits, switch_fits,
};
use lengths::{Len, Point};

fn axis_fault(axis: Axis, low: Len, high: Len, start: Len) -> Option<Fault>
    ensures { result ≡ first_broken (axis_limits axis low.v high.v start.v) }
{
    if !low.at_most(high) {
        return Some(Fault::TravelOrder(axis));
    }
    if !is_within(TRAVEL_LIMIT, low) {
        return Some(Fault::TravelFar(axis));
    }
    if !is_within(TRAVEL_LIMIT, high) {
        return Some(Fault::TravelFar(axis));
    }
    if !is_between(low, high, start) {
        return Some(Fault::StartOutside(axis));
    }
    None
}

fn travel_fault(low: Point, high: Point, start: Point) -> Option<Fault>
    ensures { result ≡ first_broken (travel_limits low high start) }
{
    axis_fault(Axis::X, low.x, high.x, start.x)
        .or_else(|| axis_fault(Axis::Y, low.y, high.y, start.y))
        .or_else(|| axis_fault(Axis::Z, low.z, high.z, start.z))
}

fn place_fault(offset: Offset, p: Point) -> Option<Fault>
    ensures { result ≡ first_broken (place_limits offset p) }
{
    if !is_within(OFFSET_LIMIT, p.x) {
        return Some(Fault::OffsetFar(offset, Axis::X));
    }
    if !is_within(OFFSET_LIMIT, p.y) {
        return Some(Fault::OffsetFar(offset, Axis::Y));
    }
    if !is_within(OFFSET_LIMIT, p.z) {
        return Some(Fault::OffsetFar(offset, Axis::Z));
    }
    None
}

fn origins_fault(origins: [Axes; 6]) -> Option<Fault>
    ensures { result ≡ first_broken (origin_limits 0 origins) }
{
    for (i, origin) in origins.iter().enumerate() {
        if let Some(fault) = place_fault(Offset::Origin(i), point_of(*origin)) {
            return Some(fault);
        }
    }
    None
}

fn number_fault(s: Setup) -> Option<Fault>
    ensures { result ≡ first_broken (number_limits s) }
{
    if !feed_fits(s) {
        return Some(Fault::Feed);
    }
    if !range_fits(s) {
        return Some(Fault::Speeds);
    }
    if !speed_fits(s) {
        return Some(Fault::Speed);
    }
    if !switch_fits(s) {
        return Some(Fault::Switch);
    }
    None
}

// The first limit that a setup breaks, in document 01's order.
pub fn fault_of(s: Setup) -> Option<Fault>
    ensures { result ≡ fault_of s }
{
    travel_fault(point_of(s.low), point_of(s.high), point_of(s.start))
        .or_else(|| place_fault(Offset::Common, point_of(s.exofs)))
        .or_else(|| origins_fault(s.origins))
        .or_else(|| number_fault(s))
}
