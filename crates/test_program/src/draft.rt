//! Drafts of tables in memory, beside documents that were written by hand.

use csvw_draft::{Draft, draft};
use csvw_engine_core::Stop;
use csvw_files::Opener;
use csvw_meta::Profile;
use csvw_streams::Counted;
use serde_json::Value;
use std::alloc::Global;
use std::io::{self, ErrorKind, Read, Write};
use std::process::Abort;
use std::str;

/// A file in memory.
#[derive(Clone, Copy)]
struct File {
    /// Its path.
    path: &'static str,
    /// Its content.
    text: &'static str,
}

/// A reader that returns a few bytes at a time, and fails once it has returned so many times.
#[derive(Drop)]
struct Pieces {
    /// The bytes that are left.
    rest: &'static [u8],
    /// How many reads don't fail.
    reads: u64,
}

impl Read for Pieces {
    ghost use Rattle.std.specs.Prelude.{Some};

    ghost remaining = { λ p. Some p.rest.now };

    fn read(&mut self, buf: &mut [u8]) -> io::Result<usize> {
        if self.reads == 0 {
            return Err(io::Error::from(ErrorKind::BrokenPipe));
        }
        self.reads -= 1;
        let most = buf.len().min(7);
        self.rest.read(&mut buf[..most])
    }
}

/// Opens files in memory.
#[derive(Drop)]
struct Files {
    files: &'static [File],
    /// How many reads of a file don't fail.
    reads: u64,
}

impl Opener for Files {
    ghost use Rattle.std.specs.Prelude.{◌≡◌};

    type Reader = Pieces;

    type Writer = Vec<u8>;

    ghost opens = { λ old _ _ new. new ≡ old };

    ghost opens_at = { λ _ _ _ _ _. Unit {0} };

    ghost closes = { λ old _ new. new ≡ old };

    fn open(&mut self, path: &str) -> Option<Pieces> {
        for file in self.files {
            if file.path == path {
                return Some(Pieces {
                    rest: file.text.as_bytes(),
                    reads: self.reads,
                });
            }
        }
        None
    }

    fn close(&mut self, _reader: Counted<Pieces>)
        ensures { self.new ≡ self.old }
    {}
}

/// A writer that takes nothing.
#[derive(Drop)]
struct Full {}

impl Write for Full {
    ghost use Rattle.std.specs.Prelude.{[], Some};

    ghost contents = { λ _. Some [] };

    fn write(&mut self, _buf: &[u8]) -> io::Result<usize> {
        Err(io::Error::from(ErrorKind::BrokenPipe))
    }

    fn flush(&mut self) -> io::Result<()> {
        Ok(())
    }
}

/// Returns what a draft of some files sends to `out`, or the text of its stop, and what it sends to `err`.
fn sent(
    alloc: Global,
    files: &'static [File],
    base: Option<&str>,
    profile: Profile,
    reads: u64,
) -> Option<(String, String)> {
    let mut paths = Vec::new(alloc);
    for file in files {
        paths.push(file.path).ok()?;
    }
    let mut out = Counted::new(Vec::new(alloc));
    let mut err = Counted::new(Vec::new(alloc));
    let asked = Draft {
        base,
        files: paths.as_slice(),
        profile,
    };
    let mut opener = Files { files, reads };
    let stop = draft(alloc, &asked, &mut opener, &mut out, &mut err);
    let notes = text_of(alloc, err.into_inner())?;
    match stop {
        Ok(()) => Some((text_of(alloc, out.into_inner())?, notes)),
        Err(stop) => Some((format!(in alloc; "{stop:?}").ok()?, notes)),
    }
}

/// Returns bytes as a text, if they are one.
fn text_of(alloc: Global, bytes: Vec<u8>) -> Option<String> {
    String::from_str(alloc, str::from_utf8(bytes.as_slice()).ok()?).ok()
}

/// Returns the document of some files, or the text of the stop.
fn drafted(
    alloc: Global,
    files: &'static [File],
    base: Option<&str>,
    profile: Profile,
    reads: u64,
) -> Option<String> {
    let (document, _) = sent(alloc, files, base, profile, reads)?;
    Some(document)
}

/// Returns a JSON text without white space, and with the members of objects in the order of their names.
fn compact(alloc: Global, text: &str) -> Option<String> {
    Value::from_str(alloc, text).ok()?.to_string(alloc).ok()
}

/// A draft of some files.
#[derive(Clone, Copy)]
struct Case {
    /// The files.
    files: &'static [File],
    /// The document, or the text of the stop.
    end: &'static str,
}

/// A case of one file.
macro_rules! one {
    ($path:literal, $text:literal, $end:literal) => {
        Case {
            files: &[File {
                path: $path,
                text: $text,
            }],
            end: $end,
        }
    };
}

static DOCUMENTS: [Case; 19] = [
    one!(
        "data/types.csv",
        "id,First Name,n,when,ok\n1,Ann,1.5,01/02/2023,true\n2,,2,13/02/2023,false\n",
        r#"{"@context":"http://www.w3.org/ns/csvw","url":"types.csv","tableSchema":{"columns":[
            {"name":"id","titles":"id","datatype":"integer","required":true},
            {"name":"First_Name","titles":"First Name"},
            {"name":"n","titles":"n","datatype":"decimal","required":true},
            {"name":"when","titles":"when","datatype":{"base":"date","format":"dd/MM/yyyy"},"required":true},
            {"name":"ok","titles":"ok","datatype":"boolean","required":true}],
            "primaryKey":"id"}}"#
    ),
    one!(
        "quotes.csv",
        "'a;b';n\n'x';1\n'y';2\n",
        r#"{"@context":"http://www.w3.org/ns/csvw","url":"quotes.csv","dialect":{"delimiter":";","quoteChar":"'"},"tableSchema":{"columns":[
            {"name":"a_b","titles":"a;b","required":true},
            {"name":"n","titles":"n","datatype":"integer","required":true}],
            "primaryKey":"a_b"}}"#
    ),
    one!(
        "headers.csv",
        "id,,id\n1,2,3\n",
        r#"{"@context":"http://www.w3.org/ns/csvw","url":"headers.csv","tableSchema":{"columns":[
            {"name":"id","titles":"id","datatype":"integer","required":true},
            {"datatype":"integer","required":true},
            {"name":"id_2","titles":"id","datatype":"integer","required":true}],
            "primaryKey":"id"}}"#
    ),
    one!(
        "blank.csv",
        "a,b\n1,2\n\n3,\n",
        r#"{"@context":"http://www.w3.org/ns/csvw","url":"blank.csv","dialect":{"skipBlankRows":true},"tableSchema":{"columns":[
            {"name":"a","titles":"a","datatype":"integer","required":true},
            {"name":"b","titles":"b","datatype":"integer"}],
            "primaryKey":"a"}}"#
    ),
    one!(
        "one.csv",
        "a\n1\n\n3\n",
        r#"{"@context":"http://www.w3.org/ns/csvw","url":"one.csv","tableSchema":{"columns":[
            {"name":"a","titles":"a","datatype":"integer"}]}}"#
    ),
    one!(
        "empty.csv",
        "",
        r#"{"@context":"http://www.w3.org/ns/csvw","url":"empty.csv","dialect":{"header":false},"tableSchema":{"columns":[]}}"#
    ),
    one!(
        "header.csv",
        "a|b",
        r#"{"@context":"http://www.w3.org/ns/csvw","url":"header.csv","dialect":{"delimiter":"|"},"tableSchema":{"columns":[
            {"name":"a","titles":"a"},{"name":"b","titles":"b"}]}}"#
    ),
    one!(
        "dates.csv",
        "d,t,m\n20.1.2024,2024-01-20T10:00,2024-01-20T10:00:59\n3.2.2024,2024-02-03T09:30,\n",
        r#"{"@context":"http://www.w3.org/ns/csvw","url":"dates.csv","tableSchema":{"columns":[
            {"name":"d","titles":"d","datatype":{"base":"date","format":"d.M.yyyy"},"required":true},
            {"name":"t","titles":"t","datatype":{"base":"dateTime","format":"yyyy-MM-ddTHH:mm"},"required":true},
            {"name":"m","titles":"m","datatype":"dateTime"}],
            "primaryKey":"d"}}"#
    ),
    one!(
        "truths.csv",
        "flag,yes,none\n0,true,\n1,true,\n0,false,\n",
        r#"{"@context":"http://www.w3.org/ns/csvw","url":"truths.csv","tableSchema":{"columns":[
            {"name":"flag","titles":"flag","datatype":"integer","required":true},
            {"name":"yes","titles":"yes","datatype":"boolean","required":true},
            {"name":"none","titles":"none"}]}}"#
    ),
    one!(
        "preamble.tsv",
        "Report\nx\ty\tz\n1\t2\t3\n",
        r#"{"@context":"http://www.w3.org/ns/csvw","url":"preamble.tsv","dialect":{"delimiter":"\t","skipRows":1},"tableSchema":{"columns":[
            {"name":"x","titles":"x","datatype":"integer","required":true},
            {"name":"y","titles":"y","datatype":"integer","required":true},
            {"name":"z","titles":"z","datatype":"integer","required":true}],
            "primaryKey":"x"}}"#
    ),
    one!(
        "a b.csv",
        "Größe,名前,_x\r\n1,2,\"a\n\"\"b\"\"\"\r\n1,2,3\r\n",
        r#"{"@context":"http://www.w3.org/ns/csvw","url":"a%20b.csv","tableSchema":{"columns":[
            {"name":"Gro_e","titles":"Größe","datatype":"integer","required":true},
            {"name":"column_2","titles":"名前","datatype":"integer","required":true},
            {"name":"x","titles":"_x","required":true}],
            "primaryKey":"x"}}"#
    ),
    one!(
        "spaces.csv",
        "n,s,k\n 1 , ,1\n2,x,01\n, ,2\n",
        r#"{"@context":"http://www.w3.org/ns/csvw","url":"spaces.csv","tableSchema":{"columns":[
            {"name":"n","titles":"n","datatype":"integer"},
            {"name":"s","titles":"s","required":true},
            {"name":"k","titles":"k","datatype":"integer","required":true}]}}"#
    ),
    one!(
        "commas.csv",
        "a;b;c\n1,5;1,234;NA\n2;-0,5;\n",
        r#"{"@context":"http://www.w3.org/ns/csvw","url":"commas.csv","dialect":{"delimiter":";"},"tableSchema":{"columns":[
            {"name":"a","titles":"a","datatype":{"base":"decimal","format":{"decimalChar":","}},"required":true},
            {"name":"b","titles":"b","datatype":{"base":"decimal","format":{"decimalChar":","}},"required":true},
            {"name":"c","titles":"c"}],
            "primaryKey":"a"}}"#
    ),
    one!(
        "grouped.csv",
        "n,d,m,s\n63 110,1'234.5,950,1 2\n950,0.25,1234,3\n1 000 000,12,1 234,4\n",
        r#"{"@context":"http://www.w3.org/ns/csvw","url":"grouped.csv","tableSchema":{"columns":[
            {"name":"n","titles":"n","datatype":{"base":"integer","format":{"groupChar":" "}},"required":true},
            {"name":"d","titles":"d","datatype":{"base":"decimal","format":{"groupChar":"'"}},"required":true},
            {"name":"m","titles":"m","required":true},
            {"name":"s","titles":"s","required":true}],
            "primaryKey":"n"}}"#
    ),
    one!(
        "narrow.csv",
        "a;b\n1\u{202F}234,5;1\u{A0}234\n-2,25;12\n",
        "{\"@context\":\"http://www.w3.org/ns/csvw\",\"url\":\"narrow.csv\",\"dialect\":{\"delimiter\":\";\"},\"tableSchema\":{\"columns\":[
            {\"name\":\"a\",\"titles\":\"a\",\"datatype\":{\"base\":\"decimal\",\"format\":{\"decimalChar\":\",\",\"groupChar\":\"\u{202F}\"}},\"required\":true},
            {\"name\":\"b\",\"titles\":\"b\",\"datatype\":{\"base\":\"integer\",\"format\":{\"groupChar\":\"\u{A0}\"}},\"required\":true}],
            \"primaryKey\":\"a\"}}"
    ),
    one!(
        "quoted.csv",
        "a,b\n\"1,5\",1\n",
        r#"{"@context":"http://www.w3.org/ns/csvw","url":"quoted.csv","tableSchema":{"columns":[
            {"name":"a","titles":"a","required":true},
            {"name":"b","titles":"b","datatype":"integer","required":true}],
            "primaryKey":"a"}}"#
    ),
    one!(
        "markers.csv",
        "id,v,w,x\n1,NA,-,n/a\n2,1.5, : ,a\n3,,2,b\n4,NA,-,c\n",
        r#"{"@context":"http://www.w3.org/ns/csvw","url":"markers.csv","tableSchema":{"columns":[
            {"name":"id","titles":"id","datatype":"integer","required":true},
            {"name":"v","titles":"v","datatype":"decimal","null":["","NA"]},
            {"name":"w","titles":"w","datatype":"integer","null":["","-",":"]},
            {"name":"x","titles":"x","required":true}],
            "primaryKey":"id"}}"#
    ),
    one!(
        "comments.csv",
        "#id,name\n1,a\n",
        r##"{"@context":"http://www.w3.org/ns/csvw","url":"comments.csv","dialect":{"commentPrefix":null},"tableSchema":{"columns":[
            {"name":"id","titles":"#id","datatype":"integer","required":true},
            {"name":"name","titles":"name","required":true}],
            "primaryKey":"id"}}"##
    ),
    Case {
        files: &[
            File {
                path: "d/stations.csv",
                text: "id,name\n1,A\n2,B\n3,C\n",
            },
            File {
                path: "d/readings.csv",
                text: "station_id,width,value\n1,1,0.5\n1,2,0.7\n3,3,\n",
            },
        ],
        end: r#"{"@context":"http://www.w3.org/ns/csvw","tables":[
            {"url":"stations.csv","tableSchema":{"columns":[
            {"name":"id","titles":"id","datatype":"integer","required":true},
            {"name":"name","titles":"name","required":true}],
            "primaryKey":"id"}},
            {"url":"readings.csv","tableSchema":{"columns":[
            {"name":"station_id","titles":"station_id","datatype":"integer","required":true},
            {"name":"width","titles":"width","datatype":"integer","required":true},
            {"name":"value","titles":"value","datatype":"decimal"}],
            "primaryKey":"width",
            "foreignKeys":[{"columnReference":"station_id","reference":{"resource":"stations.csv","columnReference":"id"}}]}}]}"#,
    },
];

/// Drafts in the profile w3c.
static W3C_DOCUMENTS: [Case; 12] = [
    one!(
        "types.csv",
        "n,d,t,c,m\n1,1e5,08:30,08:30:00,2020-01-31T08:30:00Z\n2,-INF,09:15,09:15:30,2020-01-31T09:00:00.5\n",
        r#"{"@context":"http://www.w3.org/ns/csvw","url":"types.csv","tableSchema":{"columns":[
            {"name":"n","titles":"n","datatype":"integer","required":true},
            {"name":"d","titles":"d","datatype":"double","required":true},
            {"name":"t","titles":"t","datatype":{"base":"time","format":"HH:mm"},"required":true},
            {"name":"c","titles":"c","datatype":"time","required":true},
            {"name":"m","titles":"m","datatype":"dateTime","required":true}],
            "primaryKey":"n"}}"#
    ),
    one!(
        "equal.csv",
        "d,m\n1.0,2020-01-01T01:00:00+02:00\n1e0,2019-12-31T23:00:00Z\n",
        r#"{"@context":"http://www.w3.org/ns/csvw","url":"equal.csv","tableSchema":{"columns":[
            {"name":"d","titles":"d","datatype":"double","required":true},
            {"name":"m","titles":"m","datatype":"dateTime","required":true}]}}"#
    ),
    one!(
        "key.csv",
        "d\n1\n INF \nNaN\n",
        r#"{"@context":"http://www.w3.org/ns/csvw","url":"key.csv","tableSchema":{"columns":[
            {"name":"d","titles":"d","datatype":"double","required":true}],
            "primaryKey":"d"}}"#
    ),
    one!(
        "seconds.csv",
        "m,t\n2020-01-31T08:30:00.25,08:30:00\n2020-01-31T08:30:00,\n",
        r#"{"@context":"http://www.w3.org/ns/csvw","url":"seconds.csv","tableSchema":{"columns":[
            {"name":"m","titles":"m","datatype":"dateTime","required":true},
            {"name":"t","titles":"t","datatype":"time"}],
            "primaryKey":"m"}}"#
    ),
    Case {
        files: &[
            File {
                path: "times.csv",
                text: "id,name\n08:30,A\n09:15,B\n",
            },
            File {
                path: "readings.csv",
                text: "times_id,value\n09:15,2E0\n09:15,2\n",
            },
        ],
        end: r#"{"@context":"http://www.w3.org/ns/csvw","tables":[
            {"url":"times.csv","tableSchema":{"columns":[
            {"name":"id","titles":"id","datatype":{"base":"time","format":"HH:mm"},"required":true},
            {"name":"name","titles":"name","required":true}],
            "primaryKey":"id"}},
            {"url":"readings.csv","tableSchema":{"columns":[
            {"name":"times_id","titles":"times_id","datatype":{"base":"time","format":"HH:mm"},"required":true},
            {"name":"value","titles":"value","datatype":"double","required":true}],
            "foreignKeys":[{"columnReference":"times_id","reference":{"resource":"times.csv","columnReference":"id"}}]}}]}"#,
    },
    one!(
        "none.csv",
        "t,h,m,z\n08:30,24:00,2020-01-31T08:30:00+15:00,2020-01-31\n08:30:15,00:00,2020-01-31T08:30:00Z,2020-01-31 Z\n",
        r#"{"@context":"http://www.w3.org/ns/csvw","url":"none.csv","tableSchema":{"columns":[
            {"name":"t","titles":"t","required":true},
            {"name":"h","titles":"h","required":true},
            {"name":"m","titles":"m","required":true},
            {"name":"z","titles":"z","required":true}],
            "primaryKey":"t"}}"#
    ),
    one!(
        "narrow.csv",
        "a,b,c,d,e\n1,1.5,2020-01-31T08:30:00,20200131,true\n",
        r#"{"@context":"http://www.w3.org/ns/csvw","url":"narrow.csv","tableSchema":{"columns":[
            {"name":"a","titles":"a","datatype":"integer","required":true},
            {"name":"b","titles":"b","datatype":"decimal","required":true},
            {"name":"c","titles":"c","datatype":"dateTime","required":true},
            {"name":"d","titles":"d","datatype":"integer","required":true},
            {"name":"e","titles":"e","datatype":"boolean","required":true}],
            "primaryKey":"a"}}"#
    ),
    one!(
        "digits.csv",
        "t\n0830\n08:30\n",
        r#"{"@context":"http://www.w3.org/ns/csvw","url":"digits.csv","tableSchema":{"columns":[
            {"name":"t","titles":"t","required":true}],
            "primaryKey":"t"}}"#
    ),
    one!(
        "minutes.csv",
        "m\n2020-01-31T08:30\n2020-01-31T08:31\n",
        r#"{"@context":"http://www.w3.org/ns/csvw","url":"minutes.csv","tableSchema":{"columns":[
            {"name":"m","titles":"m","datatype":{"base":"dateTime","format":"yyyy-MM-ddTHH:mm"},"required":true}],
            "primaryKey":"m"}}"#
    ),
    // dates and times with zones; those of the first and of the last column are one moment each
    one!(
        "zones.csv",
        "a,b,t\n2020-01-31+13:00,2020-01-31,08:30:00Z\n2020-01-30-11:00,2020-01-31Z,09:30:00+01:00\n",
        r#"{"@context":"http://www.w3.org/ns/csvw","url":"zones.csv","tableSchema":{"columns":[
            {"name":"a","titles":"a","datatype":"date","required":true},
            {"name":"b","titles":"b","datatype":"date","required":true},
            {"name":"t","titles":"t","datatype":"time","required":true}],
            "primaryKey":"b"}}"#
    ),
    // moments as databases write them, and times with parts of a second; in the last two columns one text has another form
    one!(
        "databases.csv",
        "p,q,t,a,b\n2020-01-31 08:30:00.123456+00,2020-01-31 08:30:00.5,08:30:00.25,2020-01-31 08:30:00+00,2020-01-31 08:30+00\n2020-02-05 23:59:00-0530,2020-02-05 23:59:00,23:59:59,2020-01-31T08:30:00Z,2020-01-31 08:31+00\n",
        r#"{"@context":"http://www.w3.org/ns/csvw","url":"databases.csv","tableSchema":{"columns":[
            {"name":"p","titles":"p","datatype":{"base":"dateTime","format":"yyyy-MM-dd HH:mm:ss.SSSSSSSSSX"},"required":true},
            {"name":"q","titles":"q","datatype":{"base":"dateTime","format":"yyyy-MM-dd HH:mm:ss.SSSSSSSSS"},"required":true},
            {"name":"t","titles":"t","datatype":"time","required":true},
            {"name":"a","titles":"a","required":true},
            {"name":"b","titles":"b","required":true}],
            "primaryKey":"p"}}"#
    ),
    // moments with a space; in the last column one text has a `T`
    one!(
        "spaced.csv",
        "a,b,c,d,e\n31/01/2020 08:30,2020-01-31 08:30:15,1.2.2020 00:00,1/31/2020 08:30,2020-01-31 08:30\n05/02/2020 23:59,2020-02-05 23:59:00,13.2.2020 09:05,2/5/2020 09:05,2020-01-31T08:30\n",
        r#"{"@context":"http://www.w3.org/ns/csvw","url":"spaced.csv","tableSchema":{"columns":[
            {"name":"a","titles":"a","datatype":{"base":"dateTime","format":"dd/MM/yyyy HH:mm"},"required":true},
            {"name":"b","titles":"b","datatype":{"base":"dateTime","format":"yyyy-MM-dd HH:mm:ss"},"required":true},
            {"name":"c","titles":"c","datatype":{"base":"dateTime","format":"d.M.yyyy HH:mm"},"required":true},
            {"name":"d","titles":"d","datatype":{"base":"dateTime","format":"M/d/yyyy HH:mm"},"required":true},
            {"name":"e","titles":"e","required":true}],
            "primaryKey":"a"}}"#
    ),
];

/// Drafts in the profile core of texts that only the profile w3c has a datatype for.
static CORE_DOCUMENTS: [Case; 1] = [one!(
    "strings.csv",
    "d,t,m,s,z\n1e5,08:30,2020-01-31T08:30:00Z,31/01/2020 08:30,2020-01-31Z\n",
    r#"{"@context":"http://www.w3.org/ns/csvw","url":"strings.csv","tableSchema":{"columns":[
        {"name":"d","titles":"d","required":true},
        {"name":"t","titles":"t","required":true},
        {"name":"m","titles":"m","required":true},
        {"name":"s","titles":"s","required":true},
        {"name":"z","titles":"z","required":true}],
        "primaryKey":"d"}}"#
)];

/// Fails if a case in a profile hasn't its document.
fn each_has_its_document(rt: &impl Abort, alloc: Global, cases: &[Case], profile: Profile) {
    for case in cases {
        let found = drafted(alloc, case.files, None, profile, u64::MAX).expect(rt, "a draft");
        assert!(rt; found.as_str().ends_with("\n}\n"), "{found}");
        let found = compact(alloc, found.as_str()).expect(rt, "a document");
        let wanted = compact(alloc, case.end).expect(rt, "a wanted document");
        assert_eq!(rt; found.as_str(), wanted.as_str());
    }
}

#[test]
fn tables_have_their_documents(rt: HostRuntime) {
    each_has_its_document(&rt, rt.alloc(), &DOCUMENTS, Profile::Core);
    each_has_its_document(&rt, rt.alloc(), &CORE_DOCUMENTS, Profile::Core);
}

/// The lines on columns that have another datatype in the profile w3c.
const NOTES: &str = "\
csvw: strings.csv: column \"d\": a string, and a double with `--profile w3c`
csvw: strings.csv: column \"t\": a string, and a time with `--profile w3c`
csvw: strings.csv: column \"m\": a string, and a dateTime with `--profile w3c`
csvw: strings.csv: column \"s\": a string, and a dateTime with `--profile w3c`
csvw: strings.csv: column \"z\": a string, and a date with `--profile w3c`
";

/// Fails if a draft of a case in a profile doesn't send these lines to `err`.
fn notes(rt: &impl Abort, alloc: Global, case: &Case, profile: Profile, want: &str) {
    let (_, notes) = sent(alloc, case.files, None, profile, u64::MAX).expect(rt, "a draft");
    assert_eq!(rt; notes.as_str(), want);
}

#[test]
fn datatypes_of_the_other_profile_are_noted(rt: HostRuntime) {
    let alloc = rt.alloc();
    for case in &CORE_DOCUMENTS {
        notes(&rt, alloc, case, Profile::Core, NOTES);
        notes(&rt, alloc, case, Profile::W3c, "");
    }
    for case in &DOCUMENTS {
        notes(&rt, alloc, case, Profile::Core, "");
    }
}

#[test]
fn a_profile_has_its_documents(rt: HostRuntime) {
    each_has_its_document(&rt, rt.alloc(), &W3C_DOCUMENTS, Profile::W3c);
}

/// The text of a document, byte by byte.
const TEXT: &str = r#"{
  "@context": [
    "http://www.w3.org/ns/csvw",
    {
      "@base": "http://example.org/"
    }
  ],
  "url": "t.csv",
  "tableSchema": {
    "columns": [
      {
        "name": "id",
        "titles": "id",
        "datatype": "integer",
        "required": true
      }
    ],
    "primaryKey": "id"
  }
}
"#;

static TABLE: [File; 1] = [File {
    path: "t.csv",
    text: "id\n1\n",
}];

#[test]
fn documents_have_a_base(rt: HostRuntime) {
    let base = Some("http://example.org/");
    let found = drafted(rt.alloc(), &TABLE, base, Profile::Core, u64::MAX).expect(&rt, "a draft");
    assert_eq!(rt; found.as_str(), TEXT);
}

static STOPS: [Case; 5] = [
    one!(
        "ragged.csv",
        "a,b\n1,2\n3\n",
        "Table { table: 1, row: 3, stop: RaggedRow }"
    ),
    one!(
        "quote.csv",
        "a\n1\"\n",
        "Rows { table: 1, row: 2, stop: BadQuote }"
    ),
    one!(
        "open.csv",
        "a\n\"1\n",
        "Rows { table: 1, row: 2, stop: UnclosedQuote }"
    ),
    Case {
        files: &[
            File {
                path: "t.csv",
                text: "id\n1\n",
            },
            File {
                path: "./t.csv",
                text: "id\n1\n",
            },
        ],
        end: "Meta(MetaFault { code: DuplicateTable, pointer: Text { inner: \"/tables/1/url\" } })",
    },
    Case {
        files: &[],
        end: "Meta(MetaFault { code: BadProperty, pointer: Text { inner: \"/tables\" } })",
    },
];

#[test]
fn other_texts_have_stops(rt: HostRuntime) {
    let alloc = rt.alloc();
    for case in &STOPS {
        let found = drafted(alloc, case.files, None, Profile::Core, u64::MAX).expect(&rt, "a stop");
        assert_eq!(rt; found.as_str(), case.end);
    }
}

#[test]
fn streams_fail(rt: HostRuntime) {
    let alloc = rt.alloc();
    assert_eq!(rt;
        drafted(alloc, &TABLE, None, Profile::Core, 0)
            .expect(&rt, "a stop")
            .as_str(),
        "Read"
    );
    assert_eq!(rt;
        drafted(alloc, &TABLE, None, Profile::Core, 1)
            .expect(&rt, "a stop")
            .as_str(),
        "Read"
    );
    let mut opener = Files {
        files: &TABLE,
        reads: u64::MAX,
    };
    let mut out = Counted::new(Full {});
    let mut err = Counted::new(Full {});
    let here = Draft {
        base: None,
        files: &["t.csv"],
        profile: Profile::Core,
    };
    let stop = draft(alloc, &here, &mut opener, &mut out, &mut err);
    assert_eq!(rt; stop, Err(Stop::Write));
    let missing = Draft {
        base: None,
        files: &["t.csv", "u.csv"],
        profile: Profile::Core,
    };
    let stop = draft(alloc, &missing, &mut opener, &mut out, &mut err);
    assert_eq!(rt; stop, Err(Stop::Read));
    assert_eq!(rt; out.failures(), 1);
}
