// Edges tested one behind another: 7, 8 and 9, and the first of several that get 17.
#![tactic(auto)]

ghost use Rattle.std.specs.Prelude.{◌≡◌};
ghost use Rattle.std.proofs.Math.Option.{some};
ghost use Rattle.layout.specs.Code.{edge_of, bare, Small};
ghost use Rattle.edges.specs.Faults.{listed_at, or_else};
ghost use Rattle.edges.specs.Walk.{rank_of, fault_of, Tested};

use layout::Field;
use layout::edge::{Edge, Placed};
use refusals::{Kind, Refusal};

fn faulty(kind: Kind, place: usize) -> Result<(), Refusal>
    ensures { result ≡ Err (record { kind = kind; place = place }) }
{
    Err(Refusal { kind, place })
}

// Where an edge stands in the order of edges, counted from 1. Sources and labels are bytes: the two side by side are one number,
// and the order takes no jump that depends on which of them decides.
pub fn rank(edge: Edge) -> usize
    requires { Small edge }
    ensures { result ≡ rank_of (some (edge_of edge)) }
{
    edge.source * 256 + edge.label + 1
}

// Edge `index` of a list: a list has no bits, and each field's place is the edge's index.
pub fn listed(index: usize, edge: Edge) -> Placed
    ensures { result ≡ listed_at index (edge_of edge) }
{
    Placed {
        source: Field {
            value: edge.source,
            place: index,
        },
        label: Field {
            value: edge.label,
            place: index,
        },
        target: Field {
            value: edge.target,
            place: index,
        },
    }
}

// The one test of an edge, behind the edge of rank `last`; 0: the first edge, which has none before it.
pub fn test(n: usize, m: usize, last: usize, edge: Placed) -> Result<(), Refusal>
    requires { Small (bare edge) }
    ensures { Tested n m last edge result }
{
    let source = edge.source;
    let label = edge.label;
    let target = edge.target;
    if n <= source.value {
        return faulty(Kind::Outside, source.place);
    }
    if m <= label.value {
        return faulty(Kind::Outside, label.place);
    }
    if n <= target.value {
        return faulty(Kind::Outside, target.place);
    }
    let here = rank(layout::edge::bare(edge));
    if here <= last {
        if here < last {
            return faulty(Kind::Order, source.place);
        }
        return faulty(Kind::Repeated, source.place);
    }
    Ok(())
}

// With one more edge that leaves the fault colour, at a place: the first that was found.
pub fn or_leaving(found: Result<(), Refusal>, place: usize) -> Result<(), Refusal>
    ensures { fault_of result ≡ or_else (fault_of found) (some (record { number = 17; place = place })) }
{
    found?;
    faulty(Kind::Leaving, place)
}
