//! The messages of issues.
ghost use Rattle.std.specs.Prelude.{◌≡◌, IfOk};
ghost use Rattle.std.specs.Fmt.{decimal};
ghost use Rattle.cat_process.specs.Messages as spec;

use cat_inputs::fault::ShelfFault;
use cat_kinds::answer::KindFault;
use cat_schema::faults::SchemaFault;
use cat_target::target::TargetFault;
use cat_tree::text::Text;
use std::alloc::{AllocError, Global};

/// Two words, parted by a space.
pub fn spaced(alloc: Global, first: &str, second: &str) -> Result<Text, AllocError>
    ensures { IfOk result (λ t. t ≡ spec.spaced first.now second.now) }
{
    let mut text = String::from_str(alloc, first)?;
    text.push_str(" ")?;
    text.push_str(second)?;
    Ok(Text::from_string(text))
}

// A word and the number of a place, parted by a space.
fn placed(alloc: Global, word: &str, place: usize) -> Result<Text, AllocError>
    ensures { IfOk result (λ t. t ≡ spec.spaced word.now (decimal place)) }
{
    let place = place.to_string(alloc)?;
    spaced(alloc, word, place.as_str())
}

/// The rule that is broken and the place, as `S5 metadata.name`.
pub fn schema_text(alloc: Global, fault: &SchemaFault) -> Result<Text, AllocError>
    ensures { IfOk result (λ t. t ≡ spec.schema_text fault.now) }
{
    let rule = fault.rule.to_string(alloc)?;
    let mut name = String::from_str(alloc, "S")?;
    name.push_str(rule.as_str())?;
    spaced(alloc, name.as_str(), fault.place.as_str())
}

/// The fault of a reference and its field, as `NoKind spec.dependsOn.0`.
pub fn kind_text(alloc: Global, fault: &KindFault) -> Result<Text, AllocError>
    ensures { IfOk result (λ t. t ≡ spec.kind_text fault.now) }
{
    spaced(alloc, fault.fault.text(), fault.place.as_str())
}

/// Why a Location has no targets, as `TooMany` or `BadTarget 0`.
pub fn target_text(alloc: Global, fault: TargetFault) -> Result<Text, AllocError>
    ensures { IfOk result (λ t. t ≡ spec.target_text fault) }
{
    match fault {
        TargetFault::TooMany => Text::of(alloc, "TooMany"),
        TargetFault::NoType => Text::of(alloc, "NoType"),
        TargetFault::BadTarget(place) => placed(alloc, "BadTarget", place),
        TargetFault::NoMemory => Text::of(alloc, "NoMemory"),
    }
}

/// Why a shelf text lists no descriptors, as `Syntax`, `Deep 0` or `NoRef 0 BadName`.
pub fn shelf_text(alloc: Global, fault: ShelfFault) -> Result<Text, AllocError>
    ensures { IfOk result (λ t. t ≡ spec.shelf_text fault) }
{
    match fault {
        ShelfFault::Syntax => Text::of(alloc, "Syntax"),
        ShelfFault::Fraction => Text::of(alloc, "Fraction"),
        ShelfFault::Shape => Text::of(alloc, "Shape"),
        ShelfFault::Deep(place) => placed(alloc, "Deep", place),
        ShelfFault::NoRef(place, fault) => {
            let place = placed(alloc, "NoRef", place)?;
            spaced(alloc, place.as_str(), fault.text())
        }
        ShelfFault::NoMemory => Text::of(alloc, "NoMemory"),
    }
}
