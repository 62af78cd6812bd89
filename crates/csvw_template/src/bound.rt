//! Templates whose names are bound: what each name stands for is looked up once, and not at each expansion.
ghost use Rattle.std.specs.Prelude.{◌≡◌, ◌<◌, ◌+◌, ◌++◌, ℕ, List, IfOk, IfSome, map, string_bytes, true};
ghost use Rattle.std.specs.List.{list_any};
ghost use Rattle.csvw_template.specs.Bound.{bound, bound_part, bound_values, expand_bound, expand_bound_part, is_at, stands_for, var_at, varies, varies_in};
ghost use Rattle.csvw_template.specs.Bound.{BoundGivesTheSame, ConstantGivesTheSame};
ghost use Rattle.csvw_template.specs.Within.{Fits, Writes, plain_len};
ghost use Rattle.csvw_template.specs.Expand.{Adds, kept, signed, value};
ghost use Rattle.csvw_template.specs.declared.bound.Binding.{Binding as TheBinding};
ghost use Rattle.csvw_template.specs.declared.vars.Var.{Var as TheVar};
ghost use Rattle.csvw_template.specs.declared.vars.Var.TheVariants.{One};

use crate::encode::push_kept;
use crate::expand::{push_one, push_value};
use crate::part::{Operator, Part};
use crate::template::Template;
use crate::vars::Var;
use csvw_text::{Copied, Seq, Text};
use std::alloc::{AllocError, Global};

/// What a name is bound to.
#[derive(Debug, Drop)]
pub enum Binding {
    /// Nothing.
    Nothing,
    /// A text.
    Constant(Text),
    /// The value at this place of the values, from 0.
    At(usize),
}

/// A part of a template whose names are bound.
#[derive(Debug, Drop)]
pub enum BoundPart {
    /// A literal, as it expands.
    Written(Text),
    /// An expression: its operator, and what its names are bound to.
    Values(Operator, Seq<Binding>),
}

/// Whether an expansion was added whole.
#[derive(Clone, Copy, Debug, PartialEq, Eq)]
pub enum Fit {
    /// The expansion was added whole.
    Whole,
    /// The text with the whole expansion is longer than the limit. A part of the expansion may have been added.
    TooLong,
}

/// A type that knows what names are bound to.
pub trait Names {
    /// What each name is bound to.
    ghost binding_of: { Self → List ℕ → TheBinding };

    /// Returns what a name is bound to, or `AllocError` if memory runs out.
    fn binding(&self, alloc: Global, name: &str) -> Result<Binding, AllocError>
        ensures { IfOk result (λ b. b ≡ binding_of self.now name.now) };
}

/// Values by their places, from 0.
pub trait Values {
    /// The values.
    ghost values: { Self → List TheVar };

    /// The condition on which the values can be asked for.
    ghost can_look_up: { Self → Type 0 };

    /// Returns the value at a place, or `AllocError` if memory runs out.
    fn var(&self, place: usize) -> Result<Var, AllocError>
        requires { can_look_up self.now }
        ensures { IfOk result (λ v. v ≡ var_at (values self.now) place) };

    /// Returns the text at a place, if it can be lent. `None` says nothing of the place.
    fn text(&self, place: usize) -> Option<&str>
        requires { can_look_up self.now }
        ensures { IfSome result (λ text. var_at (values self.now) place ≡ One text.now) };

    /// Returns true only if the value at a place has more than `most` bytes, with nothing encoded. `false` says
    /// nothing of the place.
    fn is_longer(&self, place: usize, most: usize) -> bool
        requires { can_look_up self.now }
        ensures { result ≡ true → most < plain_len (var_at (values self.now) place) };
}

impl Template {
    /// Returns the parts of the template with the names bound, or `AllocError` if memory runs out.
    pub fn bind<N: Names>(&self, alloc: Global, names: &N) -> Result<Seq<BoundPart>, AllocError>
        ensures { IfOk result (λ parts. parts ≡ bound (N.binding_of names.now) self.now) }
    {
        bind_parts(alloc, self.parts(), names)
    }
}

/// A law: bound templates expand to the same texts as the templates. If they don't vary, they expand to the same text
/// under all values.
pub fn bound_gives_the_same()
    ensures same { BoundGivesTheSame }
    ensures constant { ConstantGivesTheSame }
{}

fn bind_parts<N: Names>(
    alloc: Global,
    parts: &[Part],
    names: &N,
) -> Result<Seq<BoundPart>, AllocError>
    ensures { IfOk result (λ ps. ps ≡ bound (N.binding_of names.now) parts.now) }
{
    let mut bound = Seq::new(alloc);
    for part in parts {
        bound.push(bind_part(alloc, part, names)?)?;
    }
    Ok(bound)
}

fn bind_part<N: Names>(alloc: Global, part: &Part, names: &N) -> Result<BoundPart, AllocError>
    ensures { IfOk result (λ p. p ≡ bound_part (N.binding_of names.now) part.now) }
{
    match part {
        Part::Literal(text) => Ok(BoundPart::Written(written(alloc, text.as_str())?)),
        Part::Expression(operator, listed) => Ok(BoundPart::Values(
            *operator,
            bind_names(alloc, listed.as_slice(), names)?,
        )),
    }
}

/// Returns a literal as it expands, or `AllocError` if memory runs out.
fn written(alloc: Global, text: &str) -> Result<Text, AllocError>
    ensures { IfOk result (λ t. t ≡ kept text.now) }
{
    let mut out = String::new(alloc);
    push_kept(&mut out, text)?;
    Ok(Text::of(out))
}

fn bind_names<N: Names>(
    alloc: Global,
    listed: &[Text],
    names: &N,
) -> Result<Seq<Binding>, AllocError>
    ensures { IfOk result (λ bs. bs ≡ map (N.binding_of names.now) listed.now) }
{
    let mut bindings = Seq::new(alloc);
    for name in listed {
        bindings.push(names.binding(alloc, name.as_str())?)?;
    }
    Ok(bindings)
}

/// Adds the expansion of bound parts under these values, if the text with it has at most `most` bytes.
///
/// Returns `Whole` if the whole expansion was added. Returns `TooLong` if the text with the whole expansion has more
/// bytes. It then stops early: it adds no value that is longer than what is left, as encoding never shortens a text.
/// Returns `AllocError` if memory runs out.
#[tactic(auto, unfolding(crate::specs::Bound::expand_bound))]
pub fn push_bound_within<V: Values>(
    out: &mut String,
    parts: &[BoundPart],
    values: &V,
    most: usize,
) -> Result<Fit, AllocError>
    requires { V.can_look_up values.now }
    ensures { IfOk result (λ fit. Fits fit most (string_bytes out.old) (expand_bound (V.values values.now) parts.now)
        (string_bytes out.new)) }
{
    for part in parts {
        match push_bound_part(out, part, values, most)? {
            Fit::Whole => {}
            Fit::TooLong => return Ok(Fit::TooLong),
        }
    }
    if out.len() > most {
        Ok(Fit::TooLong)
    } else {
        Ok(Fit::Whole)
    }
}

/// Adds what a part expands to. It stops before a value that is too long. It doesn't compare the length after the last value.
fn push_bound_part<V: Values>(
    out: &mut String,
    part: &BoundPart,
    values: &V,
    most: usize,
) -> Result<Fit, AllocError>
    requires { V.can_look_up values.now }
    ensures { IfOk result (λ fit. Writes fit most (string_bytes out.old) (expand_bound_part (V.values values.now) part.now)
        (string_bytes out.new)) }
{
    match part {
        BoundPart::Written(text) => {
            out.push_str(text.as_str())?;
            Ok(Fit::Whole)
        }
        BoundPart::Values(operator, bindings) => {
            push_bindings(out, *operator, bindings.as_slice(), values, most)
        }
    }
}

fn push_bindings<V: Values>(
    out: &mut String,
    operator: Operator,
    bindings: &[Binding],
    values: &V,
    most: usize,
) -> Result<Fit, AllocError>
    requires { V.can_look_up values.now }
    ensures { IfOk result (λ fit. Writes fit most (string_bytes out.old)
        (signed operator (bound_values operator (V.values values.now) bindings.now)) (string_bytes out.new)) }
{
    let mut is_first = true;
    for binding in bindings {
        if is_past(out.len(), binding, values, most) {
            return Ok(Fit::TooLong);
        }
        if push_binding(out, operator, is_first, binding, values)? {
            is_first = false;
        }
    }
    Ok(Fit::Whole)
}

/// Returns true only if a text of this length, with what a binding stands for, is longer than the limit.
fn is_past<V: Values>(len: usize, binding: &Binding, values: &V, most: usize) -> bool
    requires { V.can_look_up values.now }
    ensures { result ≡ true → most < len + plain_len (stands_for (V.values values.now) binding.now) }
{
    if len > most {
        return true;
    }
    let left = most - len;
    match binding {
        Binding::Nothing => false,
        Binding::Constant(text) => text.len() > left,
        Binding::At(place) => values.is_longer(*place, left),
    }
}

/// Adds what a binding stands for, after the sign or a comma. Returns whether it stands for something.
fn push_binding<V: Values>(
    out: &mut String,
    operator: Operator,
    is_first: bool,
    binding: &Binding,
    values: &V,
) -> Result<bool, AllocError>
    requires { V.can_look_up values.now }
    ensures { IfOk result (λ b. Adds operator is_first (value operator (stands_for (V.values values.now) binding.now)) b
        (string_bytes out.old) (string_bytes out.new)) }
{
    match binding {
        Binding::Nothing => Ok(false),
        Binding::Constant(text) => {
            push_one(out, operator, is_first, text.as_str())?;
            Ok(true)
        }
        Binding::At(place) => push_at(out, operator, is_first, *place, values),
    }
}

/// Adds the value at a place, after the sign or a comma. Returns whether there is one.
fn push_at<V: Values>(
    out: &mut String,
    operator: Operator,
    is_first: bool,
    place: usize,
    values: &V,
) -> Result<bool, AllocError>
    requires { V.can_look_up values.now }
    ensures { IfOk result (λ b. Adds operator is_first (value operator (var_at (V.values values.now) place)) b
        (string_bytes out.old) (string_bytes out.new)) }
{
    if let Some(text) = values.text(place) {
        push_one(out, operator, is_first, text)?;
        return Ok(true);
    }
    let var = values.var(place)?;
    push_value(out, operator, is_first, &var)
}

fn is_at(binding: &Binding) -> bool
    ensures { result ≡ is_at binding.now }
{
    matches!(binding, Binding::At(_))
}

fn any_at(bindings: &[Binding]) -> bool
    ensures { result ≡ list_any is_at bindings.now }
{
    bindings.iter().any(|binding| is_at(binding))
}

fn varies_in(part: &BoundPart) -> bool
    ensures { result ≡ varies_in part.now }
{
    match part {
        BoundPart::Written(_) => false,
        BoundPart::Values(_, bindings) => any_at(bindings.as_slice()),
    }
}

/// Returns whether the expansion of bound parts may differ under other values.
pub fn varies(parts: &[BoundPart]) -> bool
    ensures { result ≡ varies parts.now }
{
    parts.iter().any(|part| varies_in(part))
}
