//! The expansion of a template's parts.
ghost use Rattle.std.specs.Prelude.{◌≡◌, ◌++◌, IfOk, OnOk, string_bytes, true};
ghost use Rattle.csvw_template.specs.Name.{after_comma};
ghost use Rattle.csvw_template.specs.Expand.{expand, expand_part, encoded, signed, value, values, lead, Adds};
ghost use Rattle.csvw_template.specs.Plain.{are_plain, is_plain_part};

use crate::encode::{push_encoded, push_kept};
use crate::part::{Operator, Part};
use crate::scope::Scope;
use crate::vars::Var;
use csvw_text::Text;
use std::alloc::{AllocError, Global};

#[tactic(auto, unfolding(crate::specs::Expand::expand))]
pub(crate) fn push_parts<S: Scope>(
    alloc: Global,
    out: &mut String,
    parts: &[Part],
    is_plain: bool,
    scope: &S,
) -> Result<(), AllocError>
    requires look_up { S.can_look_up scope.now }
    requires plain { is_plain ≡ are_plain parts.now }
    ensures { OnOk result (string_bytes out.new ≡ string_bytes out.old ++ expand (S.variables scope.now) parts.now) }
{
    for part in parts {
        push_part(alloc, out, part, is_plain, scope)?;
    }
    Ok(())
}

/// Adds what a part expands to. A literal of plain characters expands to itself.
#[tactic(auto, using(crate::proofs::PlainLemmas::plain_stays))]
fn push_part<S: Scope>(
    alloc: Global,
    out: &mut String,
    part: &Part,
    is_plain: bool,
    scope: &S,
) -> Result<(), AllocError>
    requires look_up { S.can_look_up scope.now }
    requires plain { is_plain ≡ true → is_plain_part part.now ≡ true }
    ensures { OnOk result (string_bytes out.new ≡ string_bytes out.old ++ expand_part (S.variables scope.now) part.now) }
{
    match part {
        Part::Literal(text) if is_plain => out.push_str(text.as_str()),
        Part::Literal(text) => push_kept(out, text.as_str()),
        Part::Expression(operator, names) => {
            push_values(alloc, out, *operator, names.as_slice(), scope)
        }
    }
}

fn push_values<S: Scope>(
    alloc: Global,
    out: &mut String,
    operator: Operator,
    names: &[Text],
    scope: &S,
) -> Result<(), AllocError>
    requires { S.can_look_up scope.now }
    ensures { OnOk result (string_bytes out.new
        ≡ string_bytes out.old ++ signed operator (values operator (S.variables scope.now) names.now)) }
{
    let mut is_first = true;
    for name in names {
        let name = name.as_str();
        if let Some(text) = scope.text(name) {
            push_one(out, operator, is_first, text)?;
            is_first = false;
            continue;
        }
        let var = scope.var(alloc, name)?;
        if push_value(out, operator, is_first, &var)? {
            is_first = false;
        }
    }
    Ok(())
}

/// Adds a text, after the sign or a comma.
pub(crate) fn push_one(
    out: &mut String,
    operator: Operator,
    is_first: bool,
    text: &str,
) -> Result<(), AllocError>
    ensures { OnOk result (string_bytes out.new ≡ string_bytes out.old ++ (lead operator is_first ++ encoded operator text.now)) }
{
    push_lead(out, operator, is_first)?;
    push_encoded(out, operator, text)
}

/// Adds the value of a variable, after the sign or a comma. Returns whether the variable is defined.
pub(crate) fn push_value(
    out: &mut String,
    operator: Operator,
    is_first: bool,
    var: &Var,
) -> Result<bool, AllocError>
    ensures { IfOk result (λ b. Adds operator is_first (value operator var.now) b
        (string_bytes out.old) (string_bytes out.new)) }
{
    match var {
        Var::Undefined => Ok(false),
        Var::One(text) => {
            push_one(out, operator, is_first, text.as_str())?;
            Ok(true)
        }
        Var::Many(items) => push_list(out, operator, is_first, items.as_slice()),
    }
}

fn push_list(
    out: &mut String,
    operator: Operator,
    is_first: bool,
    items: &[Text],
) -> Result<bool, AllocError>
    ensures { IfOk result (λ b. Adds operator is_first (value operator (Var.Many items.now)) b
        (string_bytes out.old) (string_bytes out.new)) }
{
    let Some((first, others)) = items.split_first() else {
        return Ok(false);
    };
    push_lead(out, operator, is_first)?;
    push_encoded(out, operator, first.as_str())?;
    for item in others {
        push_later(out, operator, item)?;
    }
    Ok(true)
}

fn push_later(out: &mut String, operator: Operator, item: &Text) -> Result<(), AllocError>
    ensures { OnOk result (string_bytes out.new ≡ string_bytes out.old ++ after_comma (encoded operator item.now)) }
{
    out.push(',')?;
    push_encoded(out, operator, item.as_str())
}

fn push_lead(out: &mut String, operator: Operator, is_first: bool) -> Result<(), AllocError>
    ensures { OnOk result (string_bytes out.new ≡ string_bytes out.old ++ lead operator is_first) }
{
    match operator {
        _ if !is_first => out.push(','),
        Operator::Fragment => out.push('#'),
        Operator::Simple | Operator::Reserved => Ok(()),
    }
}
