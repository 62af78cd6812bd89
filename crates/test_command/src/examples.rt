//! The groups of examples/. Each constant is the content of a file there.

use crate::runs::Sent::Just;
use crate::runs::{Case, End, File, each_ends_so};

const STATIONS: &[u8] = br"Station,River,Towns
BS,Rhein,Basel;Birsfelden
KO,Mosel,Koblenz
";

const LEVELS: &[u8] = br"station;day;level
BS;2024-05-01;612
BS;2024-05-02;-
KO;2024-05-01;198
";

const RIVERS: &[u8] = br#"{
  "@context": "http://www.w3.org/ns/csvw",
  "tables": [
    {
      "url": "stations.csv",
      "tableSchema": {
        "columns": [
          {"name": "station", "titles": "Station", "required": true},
          {"name": "river", "titles": "River", "lang": "de"},
          {"name": "towns", "titles": "Towns", "separator": ";"}
        ]
      }
    },
    {
      "url": "levels.csv",
      "dialect": {"delimiter": ";"},
      "null": "-",
      "tableSchema": {
        "columns": [
          {"titles": "station"},
          {"titles": "day"},
          {"titles": "level"}
        ]
      }
    }
  ]
}
"#;

const RIVERS_GRAPH: &[u8] = br#"_:t1r1s <http://example.org/rivers/stations.csv#station> "BS" .
_:t1r1s <http://example.org/rivers/stations.csv#river> "Rhein"@de .
_:t1r1s <http://example.org/rivers/stations.csv#towns> "Basel" .
_:t1r1s <http://example.org/rivers/stations.csv#towns> "Birsfelden" .
_:t1r2s <http://example.org/rivers/stations.csv#station> "KO" .
_:t1r2s <http://example.org/rivers/stations.csv#river> "Mosel"@de .
_:t1r2s <http://example.org/rivers/stations.csv#towns> "Koblenz" .
_:t2r1s <http://example.org/rivers/levels.csv#station> "BS" .
_:t2r1s <http://example.org/rivers/levels.csv#day> "2024-05-01" .
_:t2r1s <http://example.org/rivers/levels.csv#level> "612" .
_:t2r2s <http://example.org/rivers/levels.csv#station> "BS" .
_:t2r2s <http://example.org/rivers/levels.csv#day> "2024-05-02" .
_:t2r3s <http://example.org/rivers/levels.csv#station> "KO" .
_:t2r3s <http://example.org/rivers/levels.csv#day> "2024-05-01" .
_:t2r3s <http://example.org/rivers/levels.csv#level> "198" .
"#;

const RIVERS_REPORT: &[u8] = br"kind,code,table,row,column
";

const LIBRARIES: &[u8] = br"Name,Road,Open
Central,Main Street 1,Mo Tu
,Park Lane 7,Sa
";

const LIBRARIES_META: &[u8] = br#"{
  "@context": "http://www.w3.org/ns/csvw",
  "url": "libraries.csv",
  "source": "city archive",
  "tableSchema": {
    "columns": [
      {"name": "name", "titles": "Name", "required": true},
      {"name": "street", "titles": ["Street", "Address"]},
      {"name": "open", "titles": "Open", "separator": " ", "ordered": true}
    ]
  }
}
"#;

const LIBRARIES_GRAPH: &[u8] =
    br#"_:t1r1s <http://example.org/libraries/libraries.csv#name> "Central" .
_:t1r1s <http://example.org/libraries/libraries.csv#street> "Main Street 1" .
_:t1r1s <http://example.org/libraries/libraries.csv#open> _:t1r1c3i1 .
_:t1r1c3i1 <http://www.w3.org/1999/02/22-rdf-syntax-ns#first> "Mo" .
_:t1r1c3i1 <http://www.w3.org/1999/02/22-rdf-syntax-ns#rest> _:t1r1c3i2 .
_:t1r1c3i2 <http://www.w3.org/1999/02/22-rdf-syntax-ns#first> "Tu" .
_:t1r1c3i2 <http://www.w3.org/1999/02/22-rdf-syntax-ns#rest> <http://www.w3.org/1999/02/22-rdf-syntax-ns#nil> .
_:t1r2s <http://example.org/libraries/libraries.csv#street> "Park Lane 7" .
_:t1r2s <http://example.org/libraries/libraries.csv#open> _:t1r2c3i1 .
_:t1r2c3i1 <http://www.w3.org/1999/02/22-rdf-syntax-ns#first> "Sa" .
_:t1r2c3i1 <http://www.w3.org/1999/02/22-rdf-syntax-ns#rest> <http://www.w3.org/1999/02/22-rdf-syntax-ns#nil> .
"#;

const LIBRARIES_REPORT: &[u8] = br"kind,code,table,row,column
warning,UnknownProperty,1,0,0
error,HeaderMismatch,1,1,2
error,Required,1,3,1
";

const PRICES: &[u8] = br"item,price
bread,3
";

const TWICE_META: &[u8] = br#"{
  "@context": "http://www.w3.org/ns/csvw",
  "tables": [
    {"url": "prices.csv"},
    {"url": "prices.csv"}
  ]
}
"#;

const REFUSAL: &[u8] = b"csvw: metadata DuplicateTable /tables/1/url\n";

const RIVERS_FILES: &[File<'static>] = &[
    File {
        path: "metadata.json",
        bytes: RIVERS,
    },
    File {
        path: "stations.csv",
        bytes: STATIONS,
    },
    File {
        path: "levels.csv",
        bytes: LEVELS,
    },
];

const LIBRARIES_FILES: &[File<'static>] = &[
    File {
        path: "metadata.json",
        bytes: LIBRARIES_META,
    },
    File {
        path: "libraries.csv",
        bytes: LIBRARIES,
    },
];

const TWICE_FILES: &[File<'static>] = &[
    File {
        path: "metadata.json",
        bytes: TWICE_META,
    },
    File {
        path: "prices.csv",
        bytes: PRICES,
    },
];

static CASES: [Case; 6] = [
    Case {
        what: "a valid group of two tables",
        words: "csvw validate --base http://example.org/rivers/metadata.json metadata.json stations.csv levels.csv",
        files: RIVERS_FILES,
        end: End {
            status: 0,
            out: Just(RIVERS_REPORT),
            err: Just(b""),
        },
    },
    Case {
        what: "the graph of two tables",
        words: "csvw convert --minimal --base http://example.org/rivers/metadata.json metadata.json stations.csv levels.csv",
        files: RIVERS_FILES,
        end: End {
            status: 0,
            out: Just(RIVERS_GRAPH),
            err: Just(RIVERS_REPORT),
        },
    },
    Case {
        what: "faults in a header and in cells",
        words: "csvw validate --base http://example.org/libraries/metadata.json metadata.json libraries.csv",
        files: LIBRARIES_FILES,
        end: End {
            status: 1,
            out: Just(LIBRARIES_REPORT),
            err: Just(b""),
        },
    },
    Case {
        what: "the graph of a table with faults",
        words: "csvw convert --minimal --base http://example.org/libraries/metadata.json metadata.json libraries.csv",
        files: LIBRARIES_FILES,
        end: End {
            status: 1,
            out: Just(LIBRARIES_GRAPH),
            err: Just(LIBRARIES_REPORT),
        },
    },
    Case {
        what: "a document that names one table twice, validated",
        words: "csvw validate --base http://example.org/twice/metadata.json metadata.json prices.csv",
        files: TWICE_FILES,
        end: End {
            status: 3,
            out: Just(b""),
            err: Just(REFUSAL),
        },
    },
    Case {
        what: "a document that names one table twice, converted",
        words: "csvw convert --minimal --base http://example.org/twice/metadata.json metadata.json prices.csv",
        files: TWICE_FILES,
        end: End {
            status: 3,
            out: Just(b""),
            err: Just(REFUSAL),
        },
    },
];

#[test]
fn examples_end_as_they_say(rt: HostRuntime) {
    each_ends_so(&rt, rt.alloc(), &CASES);
}
