//! The examples of RFC 6570 that have only these operators, and texts that are not templates.
use csvw_template::{Template, TemplateFault, Var, Vars};
use csvw_text::{Seq, Text};
use std::alloc::{AllocError, Global};
use std::process::Abort;
use std::test::Fail;

/// Examples of RFC 6570, sections 1.2 and 3.2, and after `=>` their expansions.
const EXAMPLES: &str = "\
{var}=>value
{hello}=>Hello%20World%21
{half}=>50%25
O{empty}X=>OX
O{undef}X=>OX
map?{x,y}=>map?1024,768
{x,hello,y}=>1024,Hello%20World%21,768
?{x,empty}=>?1024,
?{x,undef}=>?1024
?{undef,y}=>?768
{list}=>red,green,blue
{+var}=>value
{+hello}=>Hello%20World!
{+half}=>50%25
{base}index=>http%3A%2F%2Fexample.com%2Fhome%2Findex
{+base}index=>http://example.com/home/index
O{+empty}X=>OX
O{+undef}X=>OX
{+path}/here=>/foo/bar/here
here?ref={+path}=>here?ref=/foo/bar
up{+path}{var}/here=>up/foo/barvalue/here
{+x,hello,y}=>1024,Hello%20World!,768
{+path,x}/here=>/foo/bar,1024/here
{+list}=>red,green,blue
X{#var}=>X#value
X{#hello}=>X#Hello%20World!
{#half}=>#50%25
foo{#empty}=>foo#
foo{#undef}=>foo
{#x,hello,y}=>#1024,Hello%20World!,768
{#path,x}/here=>#/foo/bar,1024/here
{#list}=>#red,green,blue";

/// Templates, and after `=>` their expansions.
const TEMPLATES: &str = "\
=>
{x,undef,y}=>1024,768
{#undef,undef}=>
{#undef,x}=>#1024
{#none}{none}=>
{none,x,none,pair,nobody}=>1024,a,b%20c
{#pair}{+pair,pair}=>#a,b%20ca,b%20c,a,b%20c
{First%20Name}=>Ann
{First%20name}=>
{a.b}=>%2520%C3%A9%254
{+a.b}=>%20%C3%A9%254
{_row}{9}{%41}=>
é a|%41%zz%4~:/?#[]@!$&'()*+,;=-._=>%C3%A9%20a%7C%41%25zz%254~:/?#[]@!$&'()*+,;=-._";

/// Texts that are `BadTemplate`.
const BAD: &str = "\
{x
{
a{
}
a}b
{x}}
{x{y}
{.x{y}
{.x
{x}{
{}
{+}
{#}
{+,x}
{:3}
{*}
{x,}
{x,,y}
{x,.y}
{x,*}
{x.}
{x.*}
{x..y}
{%2}
{%2g}
{x%}
{x!}
{x }
{é}
{+.x}
{++x}
{#/x}
{x-y}
{x!}{.y}";

/// Texts that are `TemplateLevel`.
const HIGHER: &str = "\
{.}
{/}
{.x}
{/x}
{;x}
{?x}
{&x}
{=x}
{,x}
{!x}
{@x}
{|x}
{x:3}
{x*}
{x,y:3}
{x,y*}
{x*,y}
{+x*}
{#x,y.z:1,}
{x*!}
{.x}}
{.x}{y
{.\"}";

/// Variables of RFC 6570, section 3.2, and others, each with one value.
static ONES: [(&str, &str); 10] = [
    ("var", "value"),
    ("hello", "Hello World!"),
    ("path", "/foo/bar"),
    ("half", "50%"),
    ("base", "http://example.com/home/"),
    ("empty", ""),
    ("x", "1024"),
    ("y", "768"),
    ("First%20Name", "Ann"),
    ("a.b", "%20é%4"),
];

/// Returns the variables of RFC 6570, section 3.2, with a `pair`, and `none`, which is a list without items.
fn variables(alloc: Global) -> Result<Vars, AllocError> {
    let mut vars = Vars::new(alloc);
    set_ones(alloc, &mut vars, &ONES)?;
    set_lists(alloc, &mut vars)?;
    Ok(vars)
}

fn set_ones(alloc: Global, vars: &mut Vars, rows: &[(&str, &str)]) -> Result<(), AllocError> {
    for (name, value) in rows {
        set_one(alloc, vars, name, value)?;
    }
    Ok(())
}

fn set_one(alloc: Global, vars: &mut Vars, name: &str, value: &str) -> Result<(), AllocError> {
    vars.set(name, Var::One(Text::copied(alloc, value)?))
}

/// Sets the variables that have no value or are lists.
fn set_lists(alloc: Global, vars: &mut Vars) -> Result<(), AllocError> {
    vars.set("undef", Var::Undefined)?;
    set_many(alloc, vars, "none", &[])?;
    set_many(alloc, vars, "list", &["red", "green", "blue"])?;
    set_many(alloc, vars, "pair", &["a", "b c"])
}

fn set_many(alloc: Global, vars: &mut Vars, name: &str, items: &[&str]) -> Result<(), AllocError> {
    vars.set(name, many(alloc, items)?)
}

fn many(alloc: Global, items: &[&str]) -> Result<Var, AllocError> {
    let mut list = Seq::new(alloc);
    for item in items {
        list.push(Text::copied(alloc, item)?)?;
    }
    Ok(Var::Many(list))
}

/// Returns whether a fault has this name. Returns false for `Memory`.
fn is_shown(alloc: Global, fault: TemplateFault, want: &str) -> bool {
    match format!(in alloc; "{fault:?}") {
        Ok(name) => name.as_str() == want,
        Err(_) => false,
    }
}

/// Returns whether a template expands to the expected text under variables.
fn expands_to(alloc: Global, template: &Template, vars: &Vars, want: &str) -> bool {
    match template.expand(alloc, vars) {
        Ok(text) => text.as_str() == want,
        Err(_) => false,
    }
}

/// Returns whether a text expands to the expected text under variables, or has the fault of this name.
fn expands(alloc: Global, vars: &Vars, text: &str, want: &str) -> bool {
    match Template::read(alloc, text) {
        Ok(template) => expands_to(alloc, &template, vars, want),
        Err(fault) => is_shown(alloc, fault, want),
    }
}

/// Checks a text on each line. The expected result is after `=>`, or is the same for all.
fn expands_each(rt: &impl Abort, alloc: Global, vars: &Vars, rows: &str, all: &str) {
    for row in rows.lines() {
        let (text, want) = row.split_once("=>").unwrap_or((row, all));
        assert!(rt; expands(alloc, vars, text, want), "{row:?}");
    }
}

#[test]
fn templates_and_other_texts(rt: HostRuntime) -> Result<(), Fail> {
    let alloc = rt.alloc();
    let vars = variables(alloc)?;
    expands_each(&rt, alloc, &vars, EXAMPLES, "no row");
    expands_each(&rt, alloc, &vars, TEMPLATES, "no row");
    expands_each(&rt, alloc, &vars, BAD, "BadTemplate");
    expands_each(&rt, alloc, &vars, HIGHER, "TemplateLevel");
    Ok(())
}

/// A text and its number of repetitions, and the same of the expected result.
type Long = (&'static str, usize, &'static str, usize);

/// Long texts, and their expected results.
static LONG: [Long; 6] = [
    ("a", 4096, "a", 4096),
    ("{x}", 32, "1024", 32),
    ("a", 4097, "TooLong", 1),
    ("}", 4097, "TooLong", 1),
    ("{x}", 33, "TooLong", 1),
    ("}{", 33, "TooLong", 1),
];

/// Returns whether a text expands to another one, repeated so many times.
fn expands_to_many(
    alloc: Global,
    vars: &Vars,
    text: &str,
    part: &str,
    parts: usize,
) -> Result<bool, AllocError> {
    let want = part.repeat(alloc, parts)?;
    Ok(expands(alloc, vars, text, want.as_str()))
}

/// Returns whether a long text has its expected result.
fn long_expands(alloc: Global, vars: &Vars, long: &Long) -> Result<bool, AllocError> {
    let (text, n, part, parts) = long;
    let text = text.repeat(alloc, *n)?;
    expands_to_many(alloc, vars, text.as_str(), part, *parts)
}

fn long_each(rt: &impl Abort, alloc: Global, vars: &Vars, rows: &[Long]) {
    for row in rows {
        assert!(rt;
            matches!(long_expands(alloc, vars, row), Ok(true)),
            "{row:?}"
        );
    }
}

#[test]
fn long_templates(rt: HostRuntime) -> Result<(), Fail> {
    let vars = variables(rt.alloc())?;
    long_each(&rt, rt.alloc(), &vars, &LONG);
    Ok(())
}

/// Returns whether the copy of a variable's value is a list.
fn is_list(alloc: Global, var: &Var) -> bool {
    matches!(var.clone(alloc), Ok(Var::Many(_)))
}

/// Returns whether variables and their copy each expand a template to the expected text. Only the copy has a value of
/// `x`.
fn expand_apart(alloc: Global, vars: &Vars, copy: &Vars) -> bool {
    match Template::read(alloc, "a{#x,y}b") {
        Ok(template) => {
            expands_to(alloc, &template, copy, "a#7,768b")
                && expands_to(alloc, &template, vars, "a#768b")
        }
        Err(_) => false,
    }
}

/// Returns whether a variable that is set anew keeps its value in a copy.
fn are_set_anew(alloc: Global, vars: &mut Vars) -> Result<bool, AllocError> {
    set_one(alloc, vars, "x", "7")?;
    let copy = vars.clone()?;
    vars.set("x", Var::Undefined)?;
    Ok(expand_apart(alloc, vars, &copy) && is_list(alloc, copy.get("list")))
}

#[test]
fn variables_are_set_anew(rt: HostRuntime) -> Result<(), Fail> {
    let mut vars = variables(rt.alloc())?;
    assert!(rt; matches!(are_set_anew(rt.alloc(), &mut vars), Ok(true)));
    assert!(rt; matches!(vars.get("nobody"), Var::Undefined));
    Ok(())
}
