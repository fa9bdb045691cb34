//! A cell that holds a heap over one region, or nothing while the heap is in use.

ghost use Rattle.std.specs.Prelude.{◌≡◌, IfSome};
ghost use base.Fml.{fex, fsep, ftrue};
ghost use Rattle.lent_heap.specs.Region.{Region};
ghost use Rattle.lent_heap.specs.Heap.{heap_region};
ghost use Rattle.lent_heap.specs.Ownership.{behind_a_ref};

use crate::heap::Heap;
use std::marker::{Move, Owns};

pub(crate) struct Slot {
    heap: Option<Heap>,
}

impl Owns for Slot {
    ghost Value = { Region };

    ghost shr_at = { λ r. behind_a_ref Fields (λ i. fex (IfSome i.heap (λ h. heap_region h ≡ r)) (λ _. ftrue)) };
}

impl Move for Slot {
    ghost own_val = { λ r vs. fex Inside (λ i. fsep (Fields.own_val i vs) (fex (IfSome i.heap (λ h. heap_region h ≡ r)) (λ _. ftrue))) };
}

impl Slot {
    pub(crate) fn new(heap: Heap) -> Slot
        ensures { result ≡ heap_region heap }
    {
        Slot { heap: Some(heap) }
    }

    pub(crate) fn replace(&self, heap: Option<Heap>) -> Option<Heap>
        requires { IfSome heap (λ h. heap_region h ≡ self.now) }
        ensures { IfSome result (λ h. heap_region h ≡ self.now) }
    {
        let place = &raw const self.heap as *mut Option<Heap>;
        unsafe {
            let old = place.read();
            place.write(heap);
            old
        }
    }

    pub(crate) fn into_inner(self) -> Option<Heap> {
        let Slot { heap } = self;
        heap
    }
}
