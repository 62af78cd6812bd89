//! What each document is shown as.

/// The lines of the group.
pub(crate) const GROUP_TEXT: &str = r##"document
  path   "t.json"
  url    "http://example.org/t.json"
  @id    "http://example.org/g"
  notes  0 (default)

table 1
  number          1
  url             "http://example.org/a.csv"
  @id             "http://example.org/a"
  suppressOutput  true
  notes           1
  dialect
    commentPrefix     null
    delimiter         ";"
    quoteChar         "\"" (default)
    doubleQuote       true (default)
    lineTerminators   ["\r\n","\n"] (default)
    trim              true
    headerRowCount    1 (default)
    skipRows          2
    skipColumns       0 (default)
    skipBlankRows     false (default)
    skipInitialSpace  false (default)
  column 1
    number          1
    name            "id"
    titles          ["Id","Number"]
    null            [""] (default)
    default         "" (default)
    required        true
    separator       null (default)
    ordered         false (default)
    lang            "und" (default)
    virtual         false (default)
    suppressOutput  false (default)
    aboutUrl        "#row-{id}"
    propertyUrl     "http://example.org/a.csv#id" (default)
    valueUrl        null (default)
    datatype
      base     "integer"
      format   {"decimalChar":".","groupChar":","}
      minimum  "1"
      maximum  "99"
    links of an example row
      aboutUrl  "http://example.org/a.csv#row-id-1"
  column 2
    number          2
    name            "the%20day" (default)
    titles          ["the day"]
    null            [""] (default)
    default         "" (default)
    required        false (default)
    separator       null (default)
    ordered         false (default)
    lang            "und" (default)
    virtual         false (default)
    suppressOutput  false (default)
    aboutUrl        "#row-{id}"
    propertyUrl     "schema:date"
    valueUrl        null (default)
    datatype
      base          "date"
      format        "d.M.yyyy"
      minExclusive  "1999-12-31"
    links of an example row
      aboutUrl     "http://example.org/a.csv#row-id-1"
      propertyUrl  "http://schema.org/date"
  column 3
    number          3
    name            "kind"
    titles          []
    null            ["-","NA"]
    default         "x"
    required        false (default)
    separator       "|"
    ordered         true
    lang            "en"
    virtual         false (default)
    suppressOutput  false (default)
    aboutUrl        "#row-{id}"
    propertyUrl     "http://example.org/a.csv#kind" (default)
    valueUrl        "b.csv#{kind},{_row},{_sourceRow},{_column},{_sourceColumn},{_name}"
    datatype
      base  "string" (default)
    links of an example row
      aboutUrl  "http://example.org/a.csv#row-id-1"
      valueUrl  "http://example.org/b.csv#kind-1,1,4,3,3,kind"
  column 4
    number          4
    name            "link"
    titles          []
    null            [""] (default)
    default         "" (default)
    required        false (default)
    separator       null (default)
    ordered         false (default)
    lang            "und" (default)
    virtual         true
    suppressOutput  true
    aboutUrl        "#row-{id}"
    propertyUrl     "rdf:type"
    valueUrl        "schema:{+_name}"
    datatype
      base  "string" (default)
    links of an example row
      aboutUrl     "http://example.org/a.csv#row-id-1"
      propertyUrl  "http://www.w3.org/1999/02/22-rdf-syntax-ns#type"
      valueUrl     "http://schema.org/link"
  keys
    primaryKey  ["id"]
  foreign key 1
    columnReference  ["kind"]
    reference        {"columnReference":["code"],"resource":"http://example.org/b.csv"}

table 2
  number          2
  url             "http://example.org/b.csv"
  @id             null (default)
  suppressOutput  false (default)
  notes           0 (default)
  dialect
    commentPrefix     "#" (default)
    delimiter         "," (default)
    quoteChar         "\"" (default)
    doubleQuote       true (default)
    lineTerminators   ["\r\n","\n"] (default)
    trim              false (default)
    headerRowCount    1 (default)
    skipRows          0 (default)
    skipColumns       0 (default)
    skipBlankRows     false (default)
    skipInitialSpace  false (default)
  column 1
    number          1
    name            "code"
    titles          []
    null            [""] (default)
    default         "" (default)
    required        false (default)
    separator       null (default)
    ordered         false (default)
    lang            "und" (default)
    virtual         false (default)
    suppressOutput  false (default)
    aboutUrl        null (default)
    propertyUrl     "http://example.org/b.csv#code" (default)
    valueUrl        null (default)
    datatype
      base       "string" (default)
      maxLength  2
  column 2
    number          2
    name            "ok"
    titles          []
    null            [""] (default)
    default         "" (default)
    required        false (default)
    separator       null (default)
    ordered         false (default)
    lang            "und" (default)
    virtual         false (default)
    suppressOutput  false (default)
    aboutUrl        null (default)
    propertyUrl     "http://example.org/b.csv#ok" (default)
    valueUrl        null (default)
    datatype
      base    "boolean"
      format  "Y|N"
  keys
    primaryKey  [] (default)

warning 1
  code     "UnknownProperty"
  pointer  "/tables/1/tableSchema/columns/1"
"##;

/// The lines of the table whose columns come from its header.
pub(crate) const HEADER_TEXT: &str = r##"document
  path   "t.json"
  url    "http://example.org/t.json"
  @id    null (default)
  notes  0 (default)

table 1
  number          1
  url             "http://example.org/t.csv"
  @id             null (default)
  suppressOutput  false (default)
  notes           0 (default)
  dialect
    commentPrefix     "#" (default)
    delimiter         "," (default)
    quoteChar         null
    doubleQuote       true (default)
    lineTerminators   ["\n"]
    trim              false (default)
    headerRowCount    0
    skipRows          0 (default)
    skipColumns       0 (default)
    skipBlankRows     false (default)
    skipInitialSpace  false (default)
  columns from the header
  keys
    primaryKey  [] (default)

warning 1
  code     "UnknownProperty"
  pointer  ""
"##;

/// The JSON of the table of one column.
pub(crate) const SMALL_JSON: &str = r##"{
  "@id": null,
  "notes": 0,
  "path": "t.json",
  "tables": [
    {
      "@id": null,
      "dialect": {
        "commentPrefix": "#",
        "delimiter": ",",
        "doubleQuote": true,
        "headerRowCount": 1,
        "lineTerminators": [
          "\r\n",
          "\n"
        ],
        "quoteChar": "\"",
        "skipBlankRows": false,
        "skipColumns": 0,
        "skipInitialSpace": false,
        "skipRows": 0,
        "trim": false
      },
      "notes": 0,
      "number": 1,
      "suppressOutput": false,
      "tableSchema": {
        "columns": [
          {
            "aboutUrl": "{#n}",
            "datatype": {
              "@id": "http://example.org/short",
              "base": "string",
              "length": 3
            },
            "default": "",
            "example": {
              "aboutUrl": "http://example.org/t.csv#n-1"
            },
            "lang": "und",
            "name": "n",
            "null": [
              ""
            ],
            "number": 1,
            "ordered": false,
            "propertyUrl": "http://example.org/t.csv#n",
            "required": false,
            "separator": null,
            "suppressOutput": false,
            "titles": [],
            "valueUrl": null,
            "virtual": false
          }
        ],
        "foreignKeys": [],
        "primaryKey": []
      },
      "url": "http://example.org/t.csv"
    }
  ],
  "url": "http://example.org/t.json",
  "warnings": []
}
"##;
