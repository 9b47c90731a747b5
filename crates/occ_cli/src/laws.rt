//! What holds of the book of every core.
ghost use Rattle.occ_text.specs.Headers.{Header};
ghost use Rattle.occ_reading.specs.WholeBooks.{BookFits};
ghost use Rattle.occ_reading.specs.Cores.{IsHeaderOf, HasWords, book_in};

use occ_core::Core;
use std::alloc::Allocator;

/// The book of every core fits each header of that core, where its keys and rows have words. So no text of it is malformed.
/// It computes nothing.
pub fn the_book_of_a_core_fits<A: Allocator>(core: &Core<A>)
    ensures { (header : Header) → IsHeaderOf header core.now.world → HasWords header.version core.now.world → BookFits (book_in header core.now.world) }
{
    core.law();
}
