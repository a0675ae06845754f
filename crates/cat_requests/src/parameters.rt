//! The parameters of a query text.
ghost use Rattle.std.specs.Prelude.{◌≡◌, IfOk, map};
ghost use Rattle.cat_query.specs.Query.{parameters_of, shown, values_named};

use cat_tree::text::Text;
use form_urlencoded::{decode, raw_pairs};
use std::alloc::{AllocError, Global};

// The text that an encoded name or value stands for.
fn shown(alloc: Global, encoded: &[u8]) -> Result<Text, AllocError>
    ensures { IfOk result (λ t. t ≡ shown encoded.now) }
{
    let text = decode(alloc, encoded)?;
    Ok(Text::from_string(text.into_owned(alloc)?))
}

/// The parameters of a form, each a name and a value.
pub fn parameters(alloc: Global, text: &str) -> Result<Vec<(Text, Text)>, AllocError>
    ensures { IfOk result (λ v. v.items ≡ parameters_of text.now) }
{
    let mut parameters = Vec::new(alloc);
    let mut pairs = raw_pairs(text.as_bytes());
    loop {
        match pairs.next() {
            Some((name, value)) => {
                let name = shown(alloc, name)?;
                let value = shown(alloc, value)?;
                parameters.push((name, value))?;
            }
            None => return Ok(parameters),
        }
    }
}

/// Lends the values of the parameters with the name, in order.
pub fn values_named<'a>(
    alloc: Global,
    name: &str,
    parameters: &'a [(Text, Text)],
) -> Result<Vec<&'a str>, AllocError>
    ensures { IfOk result (λ v. map (λ t. t.now) v.items ≡ values_named name.now parameters.now) }
{
    let mut values = Vec::new(alloc);
    for (other, value) in parameters {
        if other.as_str() == name {
            values.push(value.as_str())?;
        }
    }
    Ok(values)
}
