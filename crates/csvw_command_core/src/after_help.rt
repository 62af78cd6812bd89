//! The examples at the end of each help.

pub(crate) const PROGRAM: &str = "\
Examples:
  csvw draft stations.csv > stations.json      a first metadata document
  csvw check stations.json                     what is wrong, in words
  csvw convert --base http://example.org/stations.json stations.json stations.csv

`csvw explain` lists all codes. Status: 0 no error, 1 errors, 2 wrong words, 3 not read, 4 device or memory.";

pub(crate) const VALIDATE: &str = "\
Examples:
  csvw validate --base http://example.org/t.json t.json t.csv
  csvw validate --report html --base http://example.org/t.json t.json t.csv > report.html
  csvw validate --strict --explain --base http://example.org/t.json t.json a.csv b.csv

The report is on standard output. `csvw explain CODE` says what a code of it means.";

pub(crate) const CONVERT: &str = "\
Examples:
  csvw convert --base http://example.org/t.json t.json t.csv > t.nt
  csvw convert --minimal --base http://example.org/t.json t.json a.csv b.csv > t.nt 2> report.csv
  gunzip -c t.csv.gz | csvw convert --base http://example.org/t.json t.json - > t.nt

The graph is on standard output, and the report on standard error. `csvw explain CODE` says what a code of it means.";

pub(crate) const PLAIN: &str = "\
Examples:
  csvw plain http://example.org/t.csv t.csv > t.nt
  tail -f log.csv | csvw plain --line-buffered http://example.org/log.csv -";

pub(crate) const CHECK: &str = "\
Examples:
  csvw check t.json                  the tables are found beside the document
  csvw check t.json new/t.csv        a table is given
  csvw check --all --report html t.json > report.html

`csvw explain CODE` says what a code means.";

pub(crate) const EXPLAIN: &str = "\
Examples:
  csvw explain                       all codes, a line each
  csvw explain BadInteger            what it means, an example, and what to write instead";

pub(crate) const INSPECT: &str = "\
Examples:
  csvw inspect t.json
  csvw inspect --json --base http://example.org/t.json t.json";

pub(crate) const DRAFT: &str = "\
Examples:
  csvw draft t.csv > t.json
  csvw draft --base http://example.org/ a.csv b.csv > tables.json
  csvw draft --profile w3c t.csv > t.json      with the datatypes of the profile w3c

What it finds in the tables is a first guess: read it, and then run `csvw check` with it.";

pub(crate) const SPLIT: &str = "\
Examples:
  csvw split --parts 8 --base http://example.org/t.json t.json t.csv > plan.csv

A line of the plan is the bytes of a table that a part reads, with the numbers of rows before them. Standard input can't be split.";

pub(crate) const KEYS: &str = "\
Examples:
  LC_ALL=C sort *.keys | csvw keys --base http://example.org/t.json t.json > keys.csv

The records come from standard input, in the order of their bytes. The faults of keys are a report on standard output, in the order of the keys.";

pub(crate) const REPORT: &str = "\
Examples:
  csvw report 1.csv 2.csv 3.csv keys.csv > report.csv

The status is 0 if no fault is an error, else 1. A file that isn't a report, as of a part that stopped, is refused.";

pub(crate) const COMPLETIONS: &str = "\
Examples:
  csvw completions bash > ~/.local/share/bash-completion/completions/csvw
  csvw completions zsh > ~/.zfunc/_csvw
  csvw completions fish > ~/.config/fish/completions/csvw.fish";

pub(crate) const MANUAL: &str = "\
Examples:
  csvw manual > csvw.1 && man ./csvw.1";
