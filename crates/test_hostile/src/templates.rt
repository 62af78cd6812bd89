//! Templates, and maps of the variables that they are expanded by.
use crate::marks::{of_nothing, with_text};
use csvw_template::{Template, Var, Vars};
use csvw_text::{Seq, Text};
use std::alloc::{AllocError, Global};
use std::io;

/// The names that are set, each with its items. A name with one item stands for that text, else for the list.
static VARIABLES: [(&str, &[&str]); 5] = [
    ("v", &["50%"]),
    ("w", &["a/b \u{e9}"]),
    ("list", &["a", "b c"]),
    ("empty", &[""]),
    ("v", &["%20"]),
];

static TEMPLATES: [&str; 6] = [
    "foo{#v}",
    "{v,w}",
    "{+w}/{list}",
    "{x}{empty}.",
    "{#list,v}",
    "{+list,empty,x}end",
];

/// Returns the list of these texts.
fn list_of(alloc: Global, items: &[&str]) -> Result<Var, AllocError> {
    let mut texts = Vec::new(alloc);
    for item in items {
        texts.push(Text::copied(alloc, item)?)?;
    }
    Ok(Var::Many(Seq::of(texts)))
}

/// Returns what a name with these items stands for.
fn var_of(alloc: Global, items: &[&str]) -> Result<Var, AllocError> {
    match items {
        [item] => Ok(Var::One(Text::copied(alloc, item)?)),
        _ => list_of(alloc, items),
    }
}

/// Returns the checksum of some bytes and of what a name stands for after them.
fn with_var(sum: u32, var: &Var) -> u32 {
    match var {
        Var::Undefined => with_text(sum, "undefined"),
        Var::One(text) => with_text(with_text(sum, "one "), text.as_str()),
        Var::Many(texts) => {
            let mut sum = with_text(sum, "many");
            for text in texts.as_slice() {
                sum = with_text(with_text(sum, " "), text.as_str());
            }
            sum
        }
    }
}

/// Returns the checksum of what all names stand for.
fn sum_of(vars: &Vars) -> u32 {
    let mut sum = of_nothing();
    for (name, _) in &VARIABLES {
        sum = with_var(with_text(with_text(sum, "\n"), name), vars.get(name));
    }
    sum
}

/// Lets a name stand for its items, and prints what was returned and the checksum of the map.
fn print_set(rt: &HostRuntime, vars: &mut Vars, name: &str, items: &[&str]) -> io::Result<()> {
    let Ok(var) = var_of(rt.alloc(), items) else {
        return print!(rt; "no value {:08x}", sum_of(vars));
    };
    match vars.set(name, var) {
        Ok(()) => print!(rt; "Ok {:08x}", sum_of(vars)),
        Err(_) => print!(rt; "Memory {:08x}", sum_of(vars)),
    }
}

fn print_sets(rt: &HostRuntime, vars: &mut Vars) -> io::Result<()> {
    println!(rt; "vars: Ok {:08x}", sum_of(vars))?;
    for (name, items) in &VARIABLES {
        print!(rt; "set {name}: ")?;
        print_set(rt, vars, name, items)?;
        print!(rt; "; again ")?;
        print_set(rt, vars, name, items)?;
        println!(rt; "")?;
    }
    Ok(())
}

fn print_expansion(rt: &HostRuntime, template: &Template, vars: &Vars) -> io::Result<()> {
    match template.expand(rt.alloc(), vars) {
        Ok(text) => print!(rt; "Ok {text}"),
        Err(_) => print!(rt; "Memory"),
    }
}

fn print_template(rt: &HostRuntime, template: &Template, vars: &Vars) -> io::Result<()> {
    print_expansion(rt, template, vars)?;
    print!(rt; "; again ")?;
    print_expansion(rt, template, vars)
}

fn print_reading(rt: &HostRuntime, text: &str, vars: &Vars) -> io::Result<()> {
    match Template::read(rt.alloc(), text) {
        Ok(template) => print_template(rt, &template, vars),
        Err(fault) => print!(rt; "{fault:?}"),
    }
}

/// Prints what `Vars::set`, `Template::read` and `expand` return.
pub(crate) fn print_templates(rt: &HostRuntime) -> io::Result<()> {
    let mut vars = Vars::new(rt.alloc());
    print_sets(rt, &mut vars)?;
    for text in &TEMPLATES {
        print!(rt; "template {text}: ")?;
        print_reading(rt, text, &vars)?;
        println!(rt; "")?;
    }
    Ok(())
}
