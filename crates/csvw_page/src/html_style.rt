//! The style of a page of HTML.

/// The style sheet. It has colours for light and dark windows, and says nothing by colour alone.
pub(crate) const STYLE: &str = "<style>
:root { color-scheme: light dark; --page: #fff; --ink: #1c1c1e; --faint: #5a5a60; --line: #d0d0d6; --card: #f6f6f8; --error: #a3161a; --warning: #7a4b00; --mark: #ffe08a; --marked: #1c1c1e }
@media (prefers-color-scheme: dark) {
:root { --page: #151517; --ink: #ececf0; --faint: #a6a6ad; --line: #3a3a40; --card: #1f1f23; --error: #ff8f8a; --warning: #ffc46b; --mark: #6b5200; --marked: #fff }
}
* { box-sizing: border-box }
body { margin: 0; background: var(--page); color: var(--ink); font: 16px/1.5 system-ui, sans-serif }
main { max-width: 60rem; margin: 0 auto; padding: 1rem }
h1 { font-size: 1.4rem; overflow-wrap: anywhere }
h2 { font-size: 1.1rem; margin: 2rem 0 .5rem; border-bottom: 1px solid var(--line); overflow-wrap: anywhere }
.wide { overflow-x: auto }
table { border-collapse: collapse; margin: 0 0 1rem; min-width: 50% }
caption { text-align: left; color: var(--faint) }
th, td { text-align: left; vertical-align: top; padding: .25rem .75rem .25rem 0; border-bottom: 1px solid var(--line); overflow-wrap: anywhere }
.number { text-align: right; font-variant-numeric: tabular-nums }
article { margin: 0 0 .75rem; padding: .5rem .75rem; background: var(--card); border-left: 4px solid var(--error) }
article.warning { border-left: 4px dashed var(--warning) }
article p { margin: .15rem 0; overflow-wrap: anywhere }
.at, .rule, .hint { color: var(--faint) }
.error b { color: var(--error) }
.warning b { color: var(--warning) }
pre { margin: .35rem 0; white-space: pre-wrap; overflow-wrap: anywhere; font: .9rem/1.5 ui-monospace, monospace }
mark { background: var(--mark); color: var(--marked); padding: 0 .3em; border-bottom: 2px solid var(--error); font-weight: bold }
a { color: inherit }
</style>
";
