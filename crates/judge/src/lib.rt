// Judges a field of source text (document 01: Numbers of refusal, 10 to 13). Proved: `judge` answers every text,
// place and edition as `judging` of text/specs says. Assumed: nothing.
#![tactic(auto)]

ghost use Rattle.std.specs.Prelude.{◌≡◌, ◌<◌, length};
ghost use Rattle.names.specs.Names.{ascii};
ghost use Rattle.names.specs.Lookup.{same_bytes};
ghost use Rattle.names.specs.declared.Found.TheVariants as Capability;
ghost use Rattle.text.specs.Describing.{judging};
ghost use Rattle.judge.specs.Judged.{says_judged, JudgedIn};
ghost use Rattle.judge.specs.Kinds.{Judges, JudgesUse, JudgesNamed, JudgesUnknown};

use edition::{Edition, Place};
use entry::{CANCELLED, CONTENT_MOST, PRESENT};
use names::Found;
use text::{FieldForm, Judged, Said, TextRefusal};

// The name is `use`.
fn is_use(name: &[u8]) -> bool
    ensures { result ≡ same_bytes name.now (ascii "use") }
{
    name == b"use".as_slice()
}

// What a form says of a boolean.
fn boolean_by(place: Place, form: FieldForm) -> Result<Said, TextRefusal>
    ensures { Judges (Capability.Boolean place) form result }
{
    match form {
        FieldForm::Boolean => Ok(Said::Boolean(place, PRESENT)),
        FieldForm::Cancelled => Ok(Said::Boolean(place, CANCELLED)),
        FieldForm::Number(_) => Err(TextRefusal::Unknown),
        FieldForm::LargeNumber => Err(TextRefusal::Unknown), // the kind comes before the limit
        FieldForm::String(_, _) => Err(TextRefusal::Unknown),
    }
}

// What a form says of a number.
fn number_by(place: Place, form: FieldForm) -> Result<Said, TextRefusal>
    ensures { Judges (Capability.Number place) form result }
{
    match form {
        FieldForm::Boolean => Err(TextRefusal::Unknown),
        FieldForm::Cancelled => Ok(Said::Number(place, CANCELLED, 0)),
        FieldForm::Number(v) => Ok(Said::Number(place, PRESENT, v)),
        FieldForm::LargeNumber => Err(TextRefusal::Limit),
        FieldForm::String(_, _) => Err(TextRefusal::Unknown),
    }
}

// What a form says of a string.
fn string_by(place: Place, form: FieldForm) -> Result<Said, TextRefusal>
    ensures { Judges (Capability.String place) form result }
{
    match form {
        FieldForm::Boolean => Err(TextRefusal::Unknown),
        FieldForm::Cancelled => Ok(Said::String(place, CANCELLED, 0, 0)),
        FieldForm::Number(_) => Err(TextRefusal::Unknown),
        FieldForm::LargeNumber => Err(TextRefusal::Unknown),
        FieldForm::String(i, n) => {
            if CONTENT_MOST < n {
                return Err(TextRefusal::Limit);
            }
            Ok(Said::String(place, PRESENT, i, n))
        }
    }
}

// What a form says under the name `use`.
fn use_by(form: FieldForm) -> Result<Said, TextRefusal>
    ensures { JudgesUse form result }
{
    match form {
        FieldForm::Boolean => Err(TextRefusal::Unknown),
        FieldForm::Cancelled => Err(TextRefusal::Unknown),
        FieldForm::Number(_) => Err(TextRefusal::Unknown),
        FieldForm::LargeNumber => Err(TextRefusal::Unknown),
        FieldForm::String(i, n) => {
            if CONTENT_MOST < n {
                return Err(TextRefusal::Limit);
            }
            Ok(Said::Use(i, n))
        }
    }
}

// A field whose name means no capability of the edition: `use`, or an unknown name.
fn judge_unknown(name: &[u8], form: FieldForm) -> Result<Said, TextRefusal>
    ensures { JudgesUnknown name.now form result }
{
    if is_use(name) {
        return use_by(form);
    }
    Err(TextRefusal::Unknown)
}

// A field that isn't dropped. `use` is no capability's name, so that only unknown names are compared with it.
fn judge_named(name: &[u8], form: FieldForm, edition: Edition) -> Result<Said, TextRefusal>
    ensures { JudgesNamed edition name.now form result }
{
    match lookup::known_in(edition, lookup::find_all(name)) {
        Some(Found::Boolean(place)) => boolean_by(place, form),
        Some(Found::Number(place)) => number_by(place, form),
        Some(Found::String(place)) => string_by(place, form),
        None => judge_unknown(name, form),
    }
}

// The field whose first byte is at a place.
pub fn judge(text: &[u8], at: usize, edition: Edition) -> Result<Judged, TextRefusal>
    requires { at < length text.now }
    ensures { (says_judged text.now at result ≡ judging edition text.now at)
        × JudgedIn edition text.now result }
{
    let Some(field) = fields::field_at(text, at) else {
        return Err(TextRefusal::Malformed);
    };
    if field.dropped {
        return Ok(Judged {
            said: Said::Nothing,
            next: field.next,
        });
    }
    let said = judge_named(&text[field.name..field.end], field.form, edition)?;
    Ok(Judged {
        said,
        next: field.next,
    })
}
