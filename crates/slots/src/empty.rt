// Slots for tables and sheets.
ghost use Rattle.std.specs.Prelude.{◌≡◌, ℕ, ◌<◌, IfOk, vec_len, slice_index_or};
ghost use Rattle.slots.specs.declared.slot.Slot.TheVariants.{Empty};

use crate::Slot;
use std::alloc::{AllocError, Global};

// So many empty slots from the heap.
pub fn empty_slots<V: Copy>(heap: Global, count: usize) -> Result<Vec<Slot<V>>, AllocError>
    ensures len { IfOk result (λ v. vec_len v ≡ count) }
    ensures empty { IfOk result (λ v. (k : ℕ) → k < count → slice_index_or v.items k Empty ≡ Empty) }
{
    let mut slots = Vec::new(heap);
    slots.resize(count, Slot::Empty)?;
    Ok(slots)
}
