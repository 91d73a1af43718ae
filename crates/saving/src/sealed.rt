//! A sealed dictionary goes onto a store.
ghost use Rattle.std.specs.Prelude.{◌≡◌, length};
ghost use Rattle.machines.specs.Pairs.{Pairs};
ghost use Rattle.images.specs.Images.{image};
ghost use Rattle.builder.specs.Standing.{SealedOf};
ghost use Rattle.saving.specs.Saves.{Saves};

use crate::refusal::SaveRefusal;
use crate::rows::closed::closed_rows;
use crate::storing::{Saved, save};
use builder::Sealed;
use outputs::output::Output;
use stores::Store;

/// Appends the image of the pairs taken to a store, and tells where it went.
///
/// It refuses a dictionary without a pair, and else a store with less room than the image needs. A refusal changes nothing.
pub fn save_sealed<'a, O: Output, S: Store>(
    sealed: &Sealed<'a, O>,
    store: &mut S,
) -> Result<Saved, SaveRefusal>
    ensures saves { (P : Pairs O.Output.kind.Ideal) → SealedOf O.Output.kind O.Output.meaning sealed.now.core P → Saves S.Store.bytes S.Store.room (image O.Output.kind P) (length P) store.old store.new result }
    ensures capacity { S.Store.room store.new ≡ S.Store.room store.old }
    ensures follows { S.Store.follows store.old store.new }
{
    save(&closed_rows(sealed.memory()), store)
}
