//! Reads a document with many properties.
use crate::groups::BASE;
use csvw_api::{Description, MetaFault, ReadDescription};
use std::io;

const DOCUMENT: &str =
    r##"{"@context":["http://www.w3.org/ns/csvw",{"@language":"en","@base":"http://example.org/d/"}],
"@id":"group","@type":"TableGroup","dialect":{"delimiter":";","quoteChar":"'","header":true,"encoding":"utf-8","trim":"start"},
"lang":"de","null":["","-"],"default":"0","textDirection":"ltr","source":"archive","dc:title":"T",
"notes":[{"oa:hasBody":{"@value":"ok","@language":"fr"},"dc:creator":{"@id":"http://x.org/me"}}],
"tables":[
{"url":"a.csv","suppressOutput":true,"tableDirection":"ltr","dialect":{"skipRows":1,"commentPrefix":"%"},
"tableSchema":{"aboutUrl":"#{id}","primaryKey":["id","day"],"columns":[
{"name":"id","titles":{"en":["Id","Key"],"de":"Nummer"},"required":true,"datatype":{"base":"integer","minimum":1,"maximum":"99"}},
{"name":"day","datatype":{"base":"date","format":"dd.MM.yyyy"}},
{"name":"tags","separator":" ","ordered":true,"null":"x","default":"y"},
{"name":"seen","virtual":true,"propertyUrl":"schema:url","valueUrl":"http://x.org/{id}/{+day}"}]}},
{"url":"b.csv","@id":"second","schema:name":["B",1,true],"tableSchema":{"columns":[
{"name":"ref","datatype":"integer"},
{"name":"kind","datatype":{"base":"string","minLength":1,"maxLength":8}}]}}]}"##;

fn print_read(rt: &HostRuntime, read: &Result<Description, MetaFault>) -> io::Result<()> {
    match read {
        Ok(description) => println!(rt; "Ok {} tables", description.tables.len()),
        Err(fault) => println!(rt; "{} {}", fault.code.name(), fault.pointer.as_str()),
    }
}

/// Prints what two reads of the document return.
pub(crate) fn print_documents(rt: &HostRuntime) -> io::Result<()> {
    for _ in 0..2 {
        print!(rt; "document: ")?;
        print_read(
            rt,
            &Description::read(rt.alloc(), DOCUMENT.as_bytes(), BASE),
        )?;
    }
    Ok(())
}
