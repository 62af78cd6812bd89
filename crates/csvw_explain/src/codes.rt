//! What each code means. docs/CODES.md has the same text.

/// The codes: for each a heading with its name and its kind, what it means, the smallest example that gives it, what to write
/// instead, and the section of the standard. In a table of an example `\n` is a line break, and braces say what stands for
/// them.
pub(crate) const CODES: &str = r##"## UnknownProperty (warning)

A property of the document is not in the vocabulary. It is ignored. With `--profile w3c` a property whose value is of a wrong kind is ignored with this warning, too, unless the property is needed. `csvw check` shows where it is.

Example:

    metadata.json: {"@context":"http://www.w3.org/ns/csvw","url":"t.csv","tableschema":{"columns":[{"name":"n"}]}}
    t.csv: n\n1\n

Instead: Correct the name, as `tableSchema`, or remove the property. A name with a colon is an annotation.

Section: Metadata Vocabulary, section 6.1.

## HeaderMissing (fault of a table)

The file has fewer header rows than its dialect says.

Example:

    metadata.json: {"@context":"http://www.w3.org/ns/csvw","url":"t.csv","tableSchema":{"columns":[{"name":"n"}]}}
    t.csv: (empty)

Instead: Add the header rows, or write `"dialect": {"header": false}`.

Section: Model for Tabular Data, section 8.

## HeaderCount (fault of a table)

A header row does not have one cell for each column that is not virtual.

Example:

    metadata.json: {"@context":"http://www.w3.org/ns/csvw","url":"t.csv","tableSchema":{"columns":[{"name":"n"}]}}
    t.csv: n,m\n1\n

Instead: Describe each column, or remove the cell.

Section: Metadata Vocabulary, section 5.6.

## HeaderMismatch (fault of a table)

A header cell is none of the titles of its column, and not its name.

Example:

    metadata.json: {"@context":"http://www.w3.org/ns/csvw","url":"t.csv","tableSchema":{"columns":[{"name":"n","titles":"Number"}]}}
    t.csv: n\n1\n

Instead: Write one of the titles into the header, or add the header to the titles: `"titles": ["Number", "n"]`.

Section: Metadata Vocabulary, section 5.6.

## Required (fault of a table)

A required cell has no value: it is null, or an empty list.

Example:

    metadata.json: {"@context":"http://www.w3.org/ns/csvw","url":"t.csv","tableSchema":{"columns":[{"name":"n","required":true},{"name":"m"}]}}
    t.csv: n,m\n,1\n

Instead: Fill in the cell, or remove `required`.

Section: Model for Tabular Data, section 6.4.

## BadBoolean (fault of a table)

The text of a cell is no boolean of the format of its column.

Example:

    metadata.json: {"@context":"http://www.w3.org/ns/csvw","url":"t.csv","tableSchema":{"columns":[{"name":"n","datatype":"boolean"}]}}
    t.csv: n\nyes\n

Instead: Write `true`, `false`, `1` or `0`, or describe the two texts: `{"base": "boolean", "format": "yes|no"}`.

Section: Model for Tabular Data, section 6.4.3.

## BadInteger (fault of a table)

The text of a cell is no integer of the format of its column.

Example:

    metadata.json: {"@context":"http://www.w3.org/ns/csvw","url":"t.csv","tableSchema":{"columns":[{"name":"n","datatype":"integer"}]}}
    t.csv: n\n12a\n

Instead: Write digits, after a sign if needed: `12`. For groups write `{"base": "integer", "format": {"groupChar": ","}}`.

Section: Model for Tabular Data, section 6.4.2.

## BadDecimal (fault of a table)

The text of a cell is no decimal of the format of its column.

Example:

    metadata.json: {"@context":"http://www.w3.org/ns/csvw","url":"t.csv","tableSchema":{"columns":[{"name":"n","datatype":"decimal"}]}}
    t.csv: n\n1e3\n

Instead: Write digits and a decimal point: `1000.5`. For a decimal comma write `{"base": "decimal", "format": {"decimalChar": ","}}`.

Section: Model for Tabular Data, section 6.4.2.

## NumberTooLong (fault of a table)

A number is 10^20 or more in size, or finer than 10^-18. Or the exponent of a double has more than 18 digits.

Example:

    metadata.json: {"@context":"http://www.w3.org/ns/csvw","url":"t.csv","tableSchema":{"columns":[{"name":"n","datatype":"integer"}]}}
    t.csv: n\n100000000000000000000\n

Instead: Round the number, or describe the column as `string`.

Section: Model for Tabular Data, section 6.4.2.

## OutOfRange (fault of a table)

An integer is outside the range of its derived datatype.

Example:

    metadata.json: {"@context":"http://www.w3.org/ns/csvw","url":"t.csv","tableSchema":{"columns":[{"name":"n","datatype":"byte"}]}}
    t.csv: n\n128\n

Instead: Correct the number, or choose a wider datatype: `short`, `int`, `long` or `integer`.

Section: XML Schema part 2, section 3.4.

## BadDate (fault of a table)

The text of a cell is no date of the format of its column, or there is no such day. Or it is no year, month or day of its datatype, as `gYear`.

Example:

    metadata.json: {"@context":"http://www.w3.org/ns/csvw","url":"t.csv","tableSchema":{"columns":[{"name":"n","datatype":"date"}]}}
    t.csv: n\n2023-02-29\n

Instead: Write `2024-02-29`, or describe the format: `{"base": "date", "format": "dd.MM.yyyy"}`. With `--profile w3c` a zone may follow, as in `2024-02-29Z`. With a format the format says whether it does, as `yyyy-MM-ddX`.

Section: Model for Tabular Data, section 6.4.4.

## BadDateTime (fault of a table)

The text of a cell is no date with a time of day of the format of its column. Or the zone of a `dateTimeStamp` is missing.

Example:

    metadata.json: {"@context":"http://www.w3.org/ns/csvw","url":"t.csv","tableSchema":{"columns":[{"name":"n","datatype":"dateTime"}]}}
    t.csv: n\n2024-02-29\n

Instead: Write `2024-02-29T23:59:00`, or describe the format `yyyy-MM-ddTHH:mm`. With `--profile w3c` a fraction and a zone may follow, as in `2024-02-29T23:59:00.5Z`. With a format the format says whether they do, as `yyyy-MM-ddTHH:mm:ss.SX`. A `dateTimeStamp` needs the zone.

Section: Model for Tabular Data, section 6.4.4.

## BadDouble (fault of a table)

The text of a cell is no double: no number with digits, perhaps a point and an exponent, and not `INF`, `-INF` or `NaN`.

Example:

    metadata.json: {"@context":"http://www.w3.org/ns/csvw","url":"t.csv","tableSchema":{"columns":[{"name":"n","datatype":"double"}]}}
    t.csv: n\n1.5E\n

Instead: Write digits after the `E`: `1.5E3`. The datatypes `double`, `float` and `number` need `--profile w3c`.

Section: XML Schema part 2, section 3.3.5.

## BadTime (fault of a table)

The text of a cell is no time of day of the format of its column.

Example:

    metadata.json: {"@context":"http://www.w3.org/ns/csvw","url":"t.csv","tableSchema":{"columns":[{"name":"n","datatype":"time"}]}}
    t.csv: n\n15:02\n

Instead: Write `15:02:00` or `15:02:00.5`, or describe the format: `HH:mm`, `HHmm`, `HHmmss` or `HH:mm:ss.SSS`. A zone may follow, as in `15:02:00Z`. With a format the format says whether it does, as `HH:mm:ssX`. The datatype `time` needs `--profile w3c`.

Section: Model for Tabular Data, section 6.4.4.

## BadText (fault of a table)

The text of a cell is not written as texts of its datatype are: no tag of a language, name of XML or text of octets. Or the regular expression that is the `format` of the datatype does not match the whole text.

Example:

    metadata.json: {"@context":"http://www.w3.org/ns/csvw","url":"t.csv","tableSchema":{"columns":[{"name":"n","datatype":"language"}]}}
    t.csv: n\nen_GB\n

Instead: Write the tag with `-`: `en-GB`. With a regular expression, correct the text or the expression: `[0-9]{3}` matches `123` and not `1234`. These datatypes and regular expressions need `--profile w3c`.

Section: XML Schema part 2, sections 3.3.15, 3.3.16, 3.3.18 and 3.4.3 to 3.4.6. Model for Tabular Data, section 6.4.6.

## BadDuration (fault of a table)

The text of a cell is no duration, or not one of its datatype. Or the regular expression that is the `format` of the datatype does not match the whole text.

Example:

    metadata.json: {"@context":"http://www.w3.org/ns/csvw","url":"t.csv","tableSchema":{"columns":[{"name":"n","datatype":"duration"}]}}
    t.csv: n\n5 days\n

Instead: Write `P5D`. A duration begins with `P`, and `T` comes before hours, minutes and seconds: `P1Y2M3DT4H5M6.7S`. A `yearMonthDuration` has years and months alone, and a `dayTimeDuration` has none. These datatypes need `--profile w3c`.

Section: XML Schema part 2, sections 3.3.6, 3.4.26 and 3.4.27. Model for Tabular Data, section 6.4.5.

## WrongLength (fault of a table)

The text of a cell does not have as many characters as `length` says.

Example:

    metadata.json: {"@context":"http://www.w3.org/ns/csvw","url":"t.csv","tableSchema":{"columns":[{"name":"n","datatype":{"base":"string","length":2}}]}}
    t.csv: n\nabc\n

Instead: Correct the text, or the facet.

Section: Metadata Vocabulary, section 5.11.2.

## TooShort (fault of a table)

The text of a cell has fewer characters than `minLength` says.

Example:

    metadata.json: {"@context":"http://www.w3.org/ns/csvw","url":"t.csv","tableSchema":{"columns":[{"name":"n","datatype":{"base":"string","minLength":2}}]}}
    t.csv: n\na\n

Instead: Lengthen the text, or correct the facet.

Section: Metadata Vocabulary, section 5.11.2.

## TooLong (fault of a table)

The text of a cell has more characters than `maxLength` says.

Example:

    metadata.json: {"@context":"http://www.w3.org/ns/csvw","url":"t.csv","tableSchema":{"columns":[{"name":"n","datatype":{"base":"string","maxLength":2}}]}}
    t.csv: n\nabc\n

Instead: Shorten the text, or correct the facet.

Section: Metadata Vocabulary, section 5.11.2.

## BelowMinimum (fault of a table)

A value is below its least value. Or the two have no order, as `P30D` and `P1M`, or as two moments, dates or times of which only one has a zone.

Example:

    metadata.json: {"@context":"http://www.w3.org/ns/csvw","url":"t.csv","tableSchema":{"columns":[{"name":"n","datatype":{"base":"integer","minimum":1}}]}}
    t.csv: n\n0\n

Instead: Correct the value, or `minimum`, `minInclusive` or `minExclusive`.

Section: Metadata Vocabulary, section 5.11.2.

## AboveMaximum (fault of a table)

A value is above its greatest value. Or the two have no order, as `P30D` and `P1M`, or as two moments, dates or times of which only one has a zone.

Example:

    metadata.json: {"@context":"http://www.w3.org/ns/csvw","url":"t.csv","tableSchema":{"columns":[{"name":"n","datatype":{"base":"integer","maximum":9}}]}}
    t.csv: n\n10\n

Instead: Correct the value, or `maximum`, `maxInclusive` or `maxExclusive`.

Section: Metadata Vocabulary, section 5.11.2.

## BadUrl (fault of a table)

The text that a link template makes of a row is no URL.

Example:

    metadata.json: {"@context":"http://www.w3.org/ns/csvw","url":"t.csv","tableSchema":{"columns":[{"name":"n","valueUrl":"http://[{n}"}]}}
    t.csv: n\na\n

Instead: Correct the template, or the cells that it names.

Section: Metadata Vocabulary, section 5.1.3.

## UrlTooLong (fault of a table)

The text that a link template makes of a row has more than 65,536 bytes.

Example:

    metadata.json: {"@context":"http://www.w3.org/ns/csvw","url":"t.csv","tableSchema":{"columns":[{"name":"n","valueUrl":"#{n}"}]}}
    t.csv: n\n{70000 times x}\n

Instead: Shorten the cell, or take it out of the template.

Section: Metadata Vocabulary, section 5.1.3.

## DuplicateKey (fault of a table)

An earlier row has the same primary key.

Example:

    metadata.json: {"@context":"http://www.w3.org/ns/csvw","url":"t.csv","tableSchema":{"columns":[{"name":"n"}],"primaryKey":"n"}}
    t.csv: n\n1\n1\n

Instead: Remove one of the rows, or add a column to the key.

Section: Metadata Vocabulary, section 5.5.1.

## NoReferencedRow (fault of a table)

No row has the key that a foreign key refers to.

Example:

    metadata.json: {"@context":"http://www.w3.org/ns/csvw","tables":[{"url":"t.csv","tableSchema":{"columns":[{"name":"n"}],"foreignKeys":[{"columnReference":"n","reference":{"resource":"u.csv","columnReference":"k"}}]}},{"url":"u.csv","tableSchema":{"columns":[{"name":"k"}]}}]}
    t.csv: n\n1\n
    u.csv: k\n2\n

Instead: Correct the foreign key, or add the row to the other table.

Section: Metadata Vocabulary, section 5.5.2.

## ManyReferencedRows (fault of a table)

Several rows have the key that a foreign key refers to.

Example:

    metadata.json: {"@context":"http://www.w3.org/ns/csvw","tables":[{"url":"t.csv","tableSchema":{"columns":[{"name":"n"}],"foreignKeys":[{"columnReference":"n","reference":{"resource":"u.csv","columnReference":"k"}}]}},{"url":"u.csv","tableSchema":{"columns":[{"name":"k"}]}}]}
    t.csv: n\n1\n
    u.csv: k\n1\n1\n

Instead: Leave one of these rows in the other table.

Section: Metadata Vocabulary, section 5.5.2.

## TooLong (fault of a document)

The document or a resource has more than 1,048,576 bytes, or a template has more than 4,096 bytes or more than 32 `{`.

Example:

    metadata.json: {"@context":"http://www.w3.org/ns/csvw","url":"t.csv","aboutUrl":"{40 times {a}}"}
    t.csv: n\n1\n

Instead: Shorten the template, or divide the document.

Section: a limit of this program.

## NotJson (fault of a document)

The document or a resource is no JSON text in UTF-8, or nests deeper than 127 levels.

Example:

    metadata.json: {"url":"t.csv",}
    t.csv: n\n1\n

Instead: Remove comments and commas before `}` and `]`, and write names and texts in double quotes.

Section: RFC 8259.

## BadContext (fault of a document)

`@context` is missing, or is not that of CSVW. That of a resource may be missing.

Example:

    metadata.json: {"url":"t.csv"}
    t.csv: n\n1\n

Instead: Write `"@context": "http://www.w3.org/ns/csvw"`.

Section: Metadata Vocabulary, section 5.2.

## BadProperty (fault of a document)

A value is of a wrong kind, is empty or below its range, or a property that is needed is missing. A resource that is no object has this code, too. With `--profile w3c` most properties with values of a wrong kind are ignored with the warning `UnknownProperty` instead.

Example:

    metadata.json: {"@context":"http://www.w3.org/ns/csvw","url":"t.csv","tableSchema":{"columns":[{"titles":7}]}}
    t.csv: n\n1\n

Instead: Write a value of the kind that the property has. If the place is an object, add the property that it needs, as `url`.

Section: Metadata Vocabulary, section 5.

## BadId (fault of a document)

An `@id` names a blank node.

Example:

    metadata.json: {"@context":"http://www.w3.org/ns/csvw","url":"t.csv","@id":"_:t"}
    t.csv: n\n1\n

Instead: Write a URL, or remove the `@id`.

Section: Metadata Vocabulary, section 5.1.2.

## BadUrl (fault of a document)

A text of the document that names a URL is no URL, or the URL of the document is not absolute.

Example:

    metadata.json: {"@context":"http://www.w3.org/ns/csvw","url":"http://["}
    t.csv: n\n1\n

Instead: Correct the text. Write an absolute URL for `--base`, as `http://example.org/metadata.json`.

Section: Metadata Vocabulary, section 5.1.2.

## UrlTooLong (fault of a document)

A text of the document that names a URL has more than 65,536 bytes.

Example:

    metadata.json: {"@context":"http://www.w3.org/ns/csvw","url":"{70000 times x}"}
    t.csv: n\n1\n

Instead: Shorten the text.

Section: a limit of this program.

## NotSupported (fault of a document)

A part of the vocabulary that this program does not support, or not in the profile core: a datatype as `duration`, a `format` of strings, `rowTitles`, a schema or a dialect by its URL, a number with a fraction.

Example:

    metadata.json: {"@context":"http://www.w3.org/ns/csvw","url":"t.csv","tableSchema":{"columns":[{"name":"n","datatype":"duration"}]}}
    t.csv: n\n1\n

Instead: Leave it out, or write what is supported: `--profile w3c` for more datatypes, regular expressions and `rowTitles`, with `--resource URL=FILE` for a schema or a dialect by its URL, `"minimum": "0.5"` for 0.5 in the profile core.

Section: Metadata Vocabulary, section 5. Model for Tabular Data, section 6.4.6.

## BadDialect (fault of a document)

No file can be read by the dialect: symbols clash, are line breaks, or no line terminator is left.

Example:

    metadata.json: {"@context":"http://www.w3.org/ns/csvw","url":"t.csv","dialect":{"delimiter":"\""}}
    t.csv: n\n1\n

Instead: Make the delimiter, the quote and the line breaks different.

Section: Metadata Vocabulary, section 5.9.

## BadDatatype (fault of a document)

A datatype has a format or facets that it can not have, or that contradict each other. Or the `format` of texts is no regular expression.

Example:

    metadata.json: {"@context":"http://www.w3.org/ns/csvw","url":"t.csv","tableSchema":{"columns":[{"name":"n","datatype":{"base":"integer","minLength":2}}]}}
    t.csv: n\n1\n

Instead: Remove the facet, or correct its value. A bound is in the default format of its datatype, as `2024-02-29`. Write a regular expression in the syntax of the Rust crate regex, as `[A-Z]{2}[0-9]+`.

Section: Metadata Vocabulary, section 5.11.2. Model for Tabular Data, section 6.4.6.

## BadTemplate (fault of a document)

A text is no URI template.

Example:

    metadata.json: {"@context":"http://www.w3.org/ns/csvw","url":"t.csv","aboutUrl":"#{n"}
    t.csv: n\n1\n

Instead: Close each `{`, and write names of columns between the braces: `#{n}`.

Section: RFC 6570, section 2.

## TemplateLevel (fault of a document)

A URI template is of a level above 2.

Example:

    metadata.json: {"@context":"http://www.w3.org/ns/csvw","url":"t.csv","aboutUrl":"{?n}"}
    t.csv: n\n1\n

Instead: Write `{n}`, `{+n}` or `{#n}`, and no `:` or `*` after a name.

Section: RFC 6570, section 1.2.

## BadName (fault of a document)

The name of a column is no name of a variable, or begins with `_`.

Example:

    metadata.json: {"@context":"http://www.w3.org/ns/csvw","url":"t.csv","tableSchema":{"columns":[{"name":"a b"}]}}
    t.csv: n\n1\n

Instead: Write letters, digits, `_` and dots, and put other texts into `titles`.

Section: Metadata Vocabulary, section 5.6.

## DuplicateName (fault of a document)

Two columns of a schema have the same name.

Example:

    metadata.json: {"@context":"http://www.w3.org/ns/csvw","url":"t.csv","tableSchema":{"columns":[{"name":"n"},{"name":"n"}]}}
    t.csv: n,n\n1,2\n

Instead: Rename one of them.

Section: Metadata Vocabulary, section 5.6.

## VirtualOrder (fault of a document)

A column that is not virtual comes after a virtual one.

Example:

    metadata.json: {"@context":"http://www.w3.org/ns/csvw","url":"t.csv","tableSchema":{"columns":[{"virtual":true,"name":"v"},{"name":"n"}]}}
    t.csv: n\n1\n

Instead: Move virtual columns to the end.

Section: Metadata Vocabulary, section 5.5.

## DuplicateTable (fault of a document)

Two tables of a group have the same URL.

Example:

    metadata.json: {"@context":"http://www.w3.org/ns/csvw","tables":[{"url":"t.csv"},{"url":"t.csv"}]}
    t.csv: n\n1\n
    u.csv: n\n1\n

Instead: Correct one of the URLs, or remove the table.

Section: Metadata Vocabulary, section 5.4.

## BadReference (fault of a document)

A key or `rowTitles` names a column or a table that does not exist, or the sides of a key have different numbers of columns.

Example:

    metadata.json: {"@context":"http://www.w3.org/ns/csvw","url":"t.csv","tableSchema":{"columns":[{"name":"n"}],"primaryKey":"m"}}
    t.csv: n\n1\n

Instead: Write the `name` of a column, not its title, and the `url` of a table of the document.

Section: Metadata Vocabulary, section 5.5.

## TooMany (fault of a document)

An array has more items than its limit, or a number is above it.

Example:

    metadata.json: {"@context":"http://www.w3.org/ns/csvw","url":"t.csv","dialect":{"headerRowCount":9}}
    t.csv: n\n1\n

Instead: Write fewer. There are at most 64 tables, 1,024 columns, 64 foreign keys, 16 columns of a key and 8 header rows.

Section: a limit of this program.

## TableCount (stop)

There is not one file for each table of the document.

Example:

    metadata.json: {"@context":"http://www.w3.org/ns/csvw","tables":[{"url":"t.csv"},{"url":"u.csv"}]}
    t.csv: n\n1\n

Instead: Give one file for each table, in the order of the document.

## NotUtf8 (stop)

The bytes of a file are no text in UTF-8.

Example:

    metadata.json: {"@context":"http://www.w3.org/ns/csvw","url":"t.csv"}
    t.csv: n\n{byte FF}\n

Instead: Save the file as UTF-8. Files in UTF-16, files by gzip and workbooks are no text in UTF-8 either.

Section: RFC 3629.

## RowTooLong (stop)

A record has more than 1,048,576 bytes.

Example:

    metadata.json: {"@context":"http://www.w3.org/ns/csvw","url":"t.csv"}
    t.csv: n\n{1100000 times x}\n

Instead: Look for a quote that is never closed before this row. Divide the record otherwise.

Section: a limit of this program.

## BadQuote (stop)

A quote is in a field that does not begin with one.

Example:

    metadata.json: {"@context":"http://www.w3.org/ns/csvw","url":"t.csv"}
    t.csv: n\na"b\n

Instead: Put the field in quotes and double the quote: `"a""b"`. If quotes mean nothing in the file, write `"dialect": {"quoteChar": null}`.

Section: RFC 4180, section 2.

## TextAfterQuote (stop)

A closing quote is followed by text.

Example:

    metadata.json: {"@context":"http://www.w3.org/ns/csvw","url":"t.csv"}
    t.csv: n\n"a"b\n

Instead: Double the quotes inside a quoted field, or remove the text after it.

Section: RFC 4180, section 2.

## UnclosedQuote (stop)

A quoted field is never closed.

Example:

    metadata.json: {"@context":"http://www.w3.org/ns/csvw","url":"t.csv"}
    t.csv: n\n"a\n

Instead: Close the quote.

Section: RFC 4180, section 2.

## TooManyRows (stop)

A file has more than 4,000,000,000 records.

Instead: Divide the file.

Section: a limit of this program.

## TooManyColumns (stop)

The header, or the first data row, has more than 1,024 columns.

Example:

    metadata.json: {"@context":"http://www.w3.org/ns/csvw","url":"t.csv"}
    t.csv: {1100 times x,}x\n

Instead: Check the delimiter of the dialect, or divide the table.

Section: a limit of this program.

## DuplicateName (stop)

Two header cells give their columns the same name.

Example:

    metadata.json: {"@context":"http://www.w3.org/ns/csvw","url":"t.csv"}
    t.csv: n,n\n1,2\n

Instead: Rename one of them in the header, or describe the columns in the document.

Section: Metadata Vocabulary, section 5.6.

## RaggedRow (stop)

A row does not have one field for each column that is not virtual.

Example:

    metadata.json: {"@context":"http://www.w3.org/ns/csvw","url":"t.csv"}
    t.csv: n,m\n1\n

Instead: Add or remove fields. Check the delimiter of the dialect if all rows are refused, and `skipBlankRows` for a blank line at the end.

Section: RFC 4180, section 2.

## Read (stop)

A file can not be opened, or a read failed.

Instead: Check the path and the permissions of the file.

## Write (stop)

A write to standard output or standard error failed, as on a full disk or a broken pipe.

Instead: Make room where the output goes, and begin anew.

## Memory (stop)

Memory ran out, or a regular expression needs more than 10 MiB, as `\w{1000}{1000}`.

Instead: Free some memory, or divide the tables. Keys are kept in memory. Repeat less in a regular expression, or a smaller class.
"##;
