//! The forms that data are, up to the first that is none.
ghost use Rattle.std.specs.Prelude.{◌≡◌, IfOk};
ghost use Rattle.fr_value.specs.Data.{data_of};
ghost use Rattle.fr_expand.specs.Shaped.{shaped};

use fr_syntax::{Form, form_of};
use fr_value::Value;
use std::alloc::{AllocError, Global};

/// The forms before the first that has no shape: all of them, where each has one.
pub(crate) fn shaped_forms(alloc: Global, forms: &[Value]) -> Result<Vec<Form>, AllocError>
    ensures { IfOk result (λ fs. fs.items ≡ shaped (data_of forms.now)) }
{
    let mut shaped = Vec::new(alloc);
    for form in forms {
        match form_of(alloc, form)? {
            Some(form) => shaped.push(form)?,
            None => return Ok(shaped),
        }
    }
    Ok(shaped)
}
