//! The bytes of a value that stand in a node's data.
ghost use Rattle.std.specs.Prelude.{◌≡◌, ◌==◌, ◌%◌, length, not};
ghost use Rattle.heap_on_node.specs.Heap.{item};
ghost use Rattle.node_values.specs.Named.{named};
ghost use Rattle.property_context.specs.Context.{of_field};
ghost use Rattle.content_glance.specs.Glances.{Holds, names_below};

use heap_on_node::HeapView;
use pst_base::u32_at;

/// Why the bytes of a value aren't in a node's data.
#[derive(Clone, Copy, Debug, PartialEq, Eq)]
pub enum Away {
    /// They stand in a subnode.
    Below,
    /// They are named and aren't there.
    Nowhere,
}

/// The bytes that an id of a heap item or a subnode names ([MS-PST] 2.3.3.2).
#[tactic(auto, unfolding(node_values::specs::Named::named))]
fn named_bytes<'a>(h: &HeapView<'a>, id: u32) -> Result<&'a [u8], Away>
    ensures { Holds (λ sub. named (item h.now) sub id) (not (id % 32 == 0)) result }
{
    if id == 0 {
        return Ok(&[]);
    }
    if id % 32 != 0 {
        return Err(Away::Below);
    }
    match h.item(id) {
        Some(bytes) => Ok(bytes),
        None => Err(Away::Nowhere),
    }
}

/// The bytes of the value of a field of 4 bytes ([MS-PST] 2.3.3.3).
pub fn field_bytes<'a>(
    h: &HeapView<'a>,
    width: Option<usize>,
    field: &'a [u8],
) -> Result<&'a [u8], Away>
    requires { length field.now ≡ 4 }
    ensures { Holds (λ sub. of_field (item h.now) sub width field.now) (names_below width field.now) result }
{
    match width {
        Some(width) => Ok(&field[..width.min(4)]),
        None => named_bytes(h, u32_at(field, 0)),
    }
}
