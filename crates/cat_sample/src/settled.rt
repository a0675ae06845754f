//! A sample is made, settled and told.
ghost use Rattle.std.specs.Prelude.{◌≡◌, ◌<◌, ◌^◌, IfOk};
ghost use Rattle.cat_core.specs.Kept.{AreSettings};
ghost use Rattle.cat_model.specs.Settle.{try_settle};
ghost use Rattle.cat_model.specs.Reply.{counts};
ghost use Rattle.cat_model.specs.Step.{start};
ghost use Rattle.cat_sample.specs.Sample.{sample_state};
ghost use Rattle.cat_sample.specs.Summary.{sample_line};

use crate::generate::mutation;
use crate::summary::summary;
use cat_core::catalogue::Catalogue;
use cat_model::types::{Counts, Settings};
use cat_plan::layers::Layers;
use cat_tree::text::Text;
use std::alloc::{AllocError, Global};

// The provider `sample` gives Groups and Components to an empty catalogue.
fn fill<L: Layers>(
    alloc: Global,
    catalogue: &mut Catalogue<L>,
    seed: u64,
    count: u64,
) -> Result<(), AllocError>
    requires empty { catalogue.old.state ≡ start }
    requires seed { seed < 2 ^ 31 }
    ensures state { IfOk result (λ _. catalogue.new.state ≡ sample_state L.rules catalogue.old.settings seed count) }
    ensures settings { catalogue.new.settings ≡ catalogue.old.settings }
{
    let provider = Text::of(alloc, "sample")?;
    let mutation = mutation(alloc, seed, count)?;
    match catalogue.mutate(alloc, &provider, &mutation) {
        Ok(_) => Ok(()),
        Err(_) => Err(AllocError),
    }
}

// Settles a catalogue at the moment 0.
fn settle<L: Layers>(alloc: Global, catalogue: &mut Catalogue<L>) -> Result<Counts, AllocError>
    ensures state { IfOk result (λ n. catalogue.new.state ≡ (try_settle L.rules catalogue.old.settings 0 None catalogue.old.state).state) }
    ensures counts { IfOk result (λ n. n ≡ counts (try_settle L.rules catalogue.old.settings 0 None catalogue.old.state)) }
{
    match catalogue.settle(alloc, 0) {
        Ok(counts) => Ok(counts),
        Err(_) => Err(AllocError),
    }
}

/// Makes a sample of ten Groups and so many Components from a seed, settles it at the moment 0, and gives the line that says
/// what came of it, with LF at its end: the number of Components, the rounds, leases and stitches of the settle, the numbers of
/// documents and of their relations, and how much each Group owns.
///
/// The seed is below 2^31. The same seed and count give the same line. The error is want of memory.
#[tactic(auto, unfolding(crate::specs::Sample::sample_settled))]
pub fn sample<L: Layers + Drop>(
    alloc: Global,
    layers: L,
    settings: Settings,
    seed: u64,
    count: u64,
) -> Result<Vec<u8>, AllocError>
    requires settings { AreSettings settings }
    requires seed { seed < 2 ^ 31 }
    ensures { IfOk result (λ text. text.items ≡ sample_line L.rules settings seed count) }
{
    let mut catalogue = Catalogue::empty(alloc, layers, settings);
    fill(alloc, &mut catalogue, seed, count)?;
    let settled = settle(alloc, &mut catalogue)?;
    summary(alloc, count, settled, catalogue.docs())
}
