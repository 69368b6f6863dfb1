//! The limits on sizes.

ghost use Rattle.std.specs.Prelude.{◌≡◌, ◌≤◌, All, length, map, sum_by};
ghost use Rattle.xm_model.specs.Limits.{most_capacity, most_primitives};
ghost use Rattle.xm_shape.specs.NamedNet as plain;
ghost use Rattle.xm_shape.specs.Views.{plain_net_of, named_kind_of, named_primitive_of};
ghost use Rattle.xm_shape.specs.Gives.{Gives};
ghost use Rattle.xm_json.specs.Holding.{each_holds};
ghost use Rattle.xm_netlist.specs.Inner.CheckSteps.{check_rooms};
ghost use Rattle.xm_netlist.specs.Checks as spec;

use xm_model::{
    MOST_CAPACITIES, MOST_CAPACITY, MOST_CHANNELS, MOST_COLOURS, MOST_PRIMITIVES,
    MOST_SOURCE_COLOURS,
};
use xm_shape::{DocFault, NamedKind, NamedNet, NamedPrimitive, Which};

fn check_size(it: Which, low: u64, high: u64, count: u64) -> Result<(), DocFault>
    ensures { Gives (λ _. tt) result (spec.check_size it low high count) }
{
    if count < low || high < count {
        return Err(DocFault::Limit(it, count));
    }
    Ok(())
}

fn check_offers(kind: &NamedKind) -> Result<(), DocFault>
    ensures { Gives (λ _. tt) result (spec.check_offers (named_kind_of kind.now)) }
{
    match kind {
        NamedKind::Source { colours, .. } => {
            check_size(
                Which::SourceColours,
                1,
                u64::from(MOST_SOURCE_COLOURS),
                colours.len() as u64,
            )
        }
        _ => Ok(()),
    }
}

fn check_room(kind: &NamedKind) -> Result<(), DocFault>
    ensures { Gives (λ _. tt) result (spec.check_room (named_kind_of kind.now)) }
{
    match kind {
        NamedKind::Queue { capacity, .. } => check_size(
            Which::Capacity,
            1,
            u64::from(MOST_CAPACITY),
            *capacity,
        ),
        _ => Ok(()),
    }
}

fn check_packets(kind: &NamedKind) -> Result<(), DocFault>
    ensures { Gives (λ _. tt) result (spec.check_packets (named_kind_of kind.now)) }
{
    match kind {
        NamedKind::Queue {
            capacity,
            packets,
            ..
        } => check_size(Which::Initial, 0, *capacity, packets.len() as u64),
        _ => Ok(()),
    }
}

fn kind_capacity(kind: &NamedKind) -> u64
    ensures { result ≡ spec.kind_capacity (named_kind_of kind.now) }
{
    match kind {
        NamedKind::Queue { capacity, .. } => *capacity,
        _ => 0,
    }
}

fn check_source_sizes(primitives: &[NamedPrimitive]) -> Result<(), DocFault>
    ensures { Gives (λ _. tt) result (each_holds spec.check_source_size (map named_primitive_of primitives.now)) }
{
    for primitive in primitives {
        check_offers(&primitive.kind)?;
    }
    Ok(())
}

fn check_queue_sizes(primitives: &[NamedPrimitive]) -> Result<(), DocFault>
    ensures { Gives (λ _. tt) result (each_holds spec.check_queue_size (map named_primitive_of primitives.now)) }
{
    for primitive in primitives {
        check_room(&primitive.kind)?;
    }
    Ok(())
}

fn check_all_packets(primitives: &[NamedPrimitive]) -> Result<(), DocFault>
    ensures { Gives (λ _. tt) result (each_holds spec.check_queue_packets (map named_primitive_of primitives.now)) }
{
    for primitive in primitives {
        check_packets(&primitive.kind)?;
    }
    Ok(())
}

/// The capacities together.
fn capacities(primitives: &[NamedPrimitive]) -> u64
    requires few { length primitives.now ≤ most_primitives }
    requires small { All (λ primitive. spec.capacity_in primitive ≤ most_capacity)
        (map named_primitive_of primitives.now) }
    ensures { result ≡ sum_by spec.capacity_in (map named_primitive_of primitives.now) }
{
    let mut total = 0;
    for primitive in primitives {
        total += kind_capacity(&primitive.kind);
    }
    total
}

fn check_rooms(primitives: &[NamedPrimitive]) -> Result<(), DocFault>
    requires { length primitives.now ≤ most_primitives }
    ensures { Gives (λ _. tt) result (check_rooms (map named_primitive_of primitives.now)) }
{
    check_queue_sizes(primitives)?;
    check_size(
        Which::CapacitySum,
        0,
        u64::from(MOST_CAPACITIES),
        capacities(primitives),
    )?;
    check_all_packets(primitives)
}

/// The sizes of a draft with so many channels are within their limits, or the first fault.
#[tactic(auto, unfolding(crate::specs::Checks::check_sizes))]
pub(crate) fn check_sizes(draft: &NamedNet, channels: usize) -> Result<(), DocFault>
    requires { channels ≡ length (plain.channel_names (plain_net_of draft.now).primitives) }
    ensures { Gives (λ _. tt) result (spec.check_sizes (plain_net_of draft.now)) }
{
    check_size(
        Which::Colours,
        1,
        u64::from(MOST_COLOURS),
        draft.colours.len() as u64,
    )?;
    check_size(
        Which::Primitives,
        1,
        u64::from(MOST_PRIMITIVES),
        draft.primitives.len() as u64,
    )?;
    check_size(
        Which::Channels,
        1,
        u64::from(MOST_CHANNELS),
        channels as u64,
    )?;
    check_source_sizes(&draft.primitives)?;
    check_rooms(&draft.primitives)
}
