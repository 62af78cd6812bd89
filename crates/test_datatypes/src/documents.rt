//! Tests of documents with datatypes: the graphs and reports of their tables.
use crate::cells::{after_line, cell_of, column_of, decoded, is_comment};
use csvw_triples_core::Mode;
use std::alloc::{AllocError, Global};
use std::process::Abort;
use std::test::Fail;
use test_runs::{Ran, run_over};

/// Documents, and the graphs and reports of their tables:
///
/// - `MEMBERS : MODE` has the members of a document other than its context and its `url`, and the mode of conversion.
/// - `TEXT => REPORT` comes next, indented as a cell. It has the text of the table, and the lines of the report after its
///   heading.
/// - The other lines that are indented by four spaces are the lines of the graph.
const CASES: &str = r##"
# an ordered list, and a list that is required and empty
"tableSchema":{"columns":[{"name":"v","separator":";","ordered":true,"required":true}]} : minimal
    v\nb;a;b\n\n => error,Required,1,3,1\n
    _:t1r1s <http://example.org/p.csv#v> _:t1r1c1i1 .
    _:t1r1c1i1 <http://www.w3.org/1999/02/22-rdf-syntax-ns#first> "b" .
    _:t1r1c1i1 <http://www.w3.org/1999/02/22-rdf-syntax-ns#rest> _:t1r1c1i2 .
    _:t1r1c1i2 <http://www.w3.org/1999/02/22-rdf-syntax-ns#first> "a" .
    _:t1r1c1i2 <http://www.w3.org/1999/02/22-rdf-syntax-ns#rest> _:t1r1c1i3 .
    _:t1r1c1i3 <http://www.w3.org/1999/02/22-rdf-syntax-ns#first> "b" .
    _:t1r1c1i3 <http://www.w3.org/1999/02/22-rdf-syntax-ns#rest> <http://www.w3.org/1999/02/22-rdf-syntax-ns#nil> .
    _:t1r2s <http://example.org/p.csv#v> <http://www.w3.org/1999/02/22-rdf-syntax-ns#nil> .
# a default replaces an empty text before null is tested
"tableSchema":{"columns":[{"name":"n","datatype":"integer","null":["","NA"],"default":"0"}]} : minimal
    n\n\nNA\n => \e
    _:t1r1s <http://example.org/p.csv#n> "0"^^<http://www.w3.org/2001/XMLSchema#integer> .
# strings between rows in which they are null or replace an empty text
"tableSchema":{"columns":[{"name":"v","null":["NA"],"default":"d","required":true},{"name":"w"}]} : minimal
    v,w\nNA,1\nlong text,2\n,3\nNA,4\nx,5\n => error,Required,1,2,1\nerror,Required,1,5,1\n
    _:t1r1s <http://example.org/p.csv#w> "1" .
    _:t1r2s <http://example.org/p.csv#v> "long text" .
    _:t1r2s <http://example.org/p.csv#w> "2" .
    _:t1r3s <http://example.org/p.csv#v> "d" .
    _:t1r3s <http://example.org/p.csv#w> "3" .
    _:t1r4s <http://example.org/p.csv#w> "4" .
    _:t1r5s <http://example.org/p.csv#v> "x" .
    _:t1r5s <http://example.org/p.csv#w> "5" .
# lists of numbers
"tableSchema":{"columns":[{"name":"n","datatype":"integer","separator":" "}]} : minimal
    n\n1 02 x\n => error,BadInteger,1,2,1\n
    _:t1r1s <http://example.org/p.csv#n> "1"^^<http://www.w3.org/2001/XMLSchema#integer> .
    _:t1r1s <http://example.org/p.csv#n> "2"^^<http://www.w3.org/2001/XMLSchema#integer> .
    _:t1r1s <http://example.org/p.csv#n> "x" .
# the datatype of a column takes precedence over that of its table
"datatype":"integer","tableSchema":{"columns":[{"name":"a"},{"name":"b","datatype":"string"}]} : minimal
    a,b\n01,01\n => \e
    _:t1r1s <http://example.org/p.csv#a> "1"^^<http://www.w3.org/2001/XMLSchema#integer> .
    _:t1r1s <http://example.org/p.csv#b> "01" .
# the datatype of a schema takes precedence over that of the table
"datatype":"integer","tableSchema":{"datatype":"decimal","columns":[{"name":"a"}]} : minimal
    a\n1.50\n => \e
    _:t1r1s <http://example.org/p.csv#a> "1.5"^^<http://www.w3.org/2001/XMLSchema#decimal> .
# columns of the header inherit too
"datatype":{"base":"boolean","format":"y|n"} : minimal
    a\ny\n => \e
    _:t1r1s <http://example.org/p.csv#a> "true"^^<http://www.w3.org/2001/XMLSchema#boolean> .
# an IRI of its own, also of strings with a language; what failed is a string
"lang":"fr","tableSchema":{"columns":[{"name":"a","datatype":{"@id":"t#i","base":"integer"}},{"name":"b","datatype":{"@id":"http://x.org/s"}}]} : minimal
    a,b\n07,u\nx,v\n => error,BadInteger,1,3,1\n
    _:t1r1s <http://example.org/p.csv#a> "7"^^<http://example.org/t#i> .
    _:t1r1s <http://example.org/p.csv#b> "u"^^<http://x.org/s> .
    _:t1r2s <http://example.org/p.csv#a> "x" .
    _:t1r2s <http://example.org/p.csv#b> "v"^^<http://x.org/s> .
# only strings have a language
"lang":"fr","tableSchema":{"columns":[{"name":"a","datatype":"integer"},{"name":"b","datatype":{"base":"string"}}]} : minimal
    a,b\n7,u\n => \e
    _:t1r1s <http://example.org/p.csv#a> "7"^^<http://www.w3.org/2001/XMLSchema#integer> .
    _:t1r1s <http://example.org/p.csv#b> "u"@fr .
# values in links
"tableSchema":{"aboutUrl":"#{n}","columns":[{"name":"n","datatype":"integer"}]} : minimal
    n\n+07\nx y\n => error,BadInteger,1,3,1\n
    <http://example.org/p.csv#7> <http://example.org/p.csv#n> "7"^^<http://www.w3.org/2001/XMLSchema#integer> .
    <http://example.org/p.csv#x%20y> <http://example.org/p.csv#n> "x y" .
# unknown properties of a column's datatype and of its format
"tableSchema":{"columns":[{"name":"n","datatype":{"base":"integer","size":1,"format":{"groupChar":"'","size":1}}}]} : minimal
    n\n1'0\n => warning,UnknownProperty,1,0,1\nwarning,UnknownProperty,1,0,1\n
    _:t1r1s <http://example.org/p.csv#n> "10"^^<http://www.w3.org/2001/XMLSchema#integer> .
# unknown properties of a table's and a schema's datatype
"datatype":{"size":1},"tableSchema":{"datatype":{"size":1},"columns":[{"name":"n"}]} : minimal
    n\nx\n => warning,UnknownProperty,1,0,0\nwarning,UnknownProperty,1,0,0\n
    _:t1r1s <http://example.org/p.csv#n> "x" .
# no graph, and the same report
"tableSchema":{"columns":[{"name":"n","datatype":"integer","required":true}]} : validate
    n\nx\n\n => error,BadInteger,1,2,1\nerror,Required,1,3,1\n
"##;

const HEADING: &str = "kind,code,table,row,column\n";

/// Returns the mode of a name, or `None`.
fn mode_of(name: &str) -> Option<Mode> {
    match name {
        "minimal" => Some(Mode::Minimal),
        "validate" => Some(Mode::Validate),
        _ => None,
    }
}

/// Returns what a run over the document with these members and the text of its table leaves.
fn ran_over(alloc: Global, members: &str, text: &str, mode: Mode) -> Result<Ran, AllocError> {
    let meta = format!(in alloc;
        "{{\"@context\":\"http://www.w3.org/ns/csvw\",\"url\":\"p.csv\",{members}}}"
    )?;
    let text = decoded(alloc, text)?;
    run_over(alloc, meta.as_str(), text.as_str(), mode)
}

/// Returns the lines of a graph before the next document.
fn graph_of(alloc: Global, lines: &str) -> Result<String, AllocError> {
    let mut graph = String::new(alloc);
    for line in lines.lines() {
        if column_of(line).is_some() {
            break;
        }
        if let Some(triple) = line.strip_prefix("    ") {
            graph.push_str(triple)?;
            graph.push('\n')?;
        }
    }
    Ok(graph)
}

/// Whether a run reached its end, and its report has these lines alone after its heading.
fn has_report(alloc: Global, ran: &Ran, lines: &str) -> Result<bool, AllocError> {
    let lines = decoded(alloc, lines)?;
    let found = ran.report.strip_prefix(HEADING.as_bytes());
    Ok(ran.stop.is_none() && found == Some(lines.as_bytes()))
}

/// Whether a run has the graph of these lines before the next document.
fn has_graph(alloc: Global, ran: &Ran, lines: &str) -> Result<bool, AllocError> {
    Ok(ran.graph.as_slice() == graph_of(alloc, lines)?.as_bytes())
}

/// Whether a run over the document of a line has the report and the graph of the lines after it.
fn gives(alloc: Global, line: &str, after: &str) -> Result<bool, AllocError> {
    let Some((members, name)) = column_of(line) else {
        return Ok(false);
    };
    let Some(mode) = mode_of(name) else {
        return Ok(false);
    };
    let (first, graph) = after.split_once('\n').unwrap_or((after, ""));
    let Some((text, report)) = cell_of(first) else {
        return Ok(false);
    };
    let ran = ran_over(alloc, members, text, mode)?;
    Ok(has_report(alloc, &ran, report)? && has_graph(alloc, &ran, graph)?)
}

/// Whether a line after a document has a form, and a document has the report and the graph of the lines after it.
fn line_holds(alloc: Global, document: &str, line: &str, after: &str) -> Result<bool, AllocError> {
    if column_of(line).is_some() {
        return gives(alloc, line, after);
    }
    Ok(is_comment(line) || (line.starts_with("    ") && !document.is_empty()))
}

/// Checks each line of a table of documents. The table has one document at least.
fn each_document(rt: &impl Abort, alloc: Global, table: &str) -> Result<(), AllocError> {
    let mut document = "";
    let mut after = table;
    for line in table.lines() {
        after = after_line(after);
        if column_of(line).is_some() {
            document = line;
        }
        assert!(rt;
            line_holds(alloc, document, line, after)?,
            "{line}, of {document}"
        );
    }
    assert!(rt; !document.is_empty(), "a table without cases");
    Ok(())
}

#[test]
fn datatypes_stand_in_the_graph(rt: HostRuntime) -> Result<(), Fail> {
    each_document(&rt, rt.alloc(), CASES)?;
    Ok(())
}
