ghost use Rattle.std.specs.Prelude.{◌≡◌};
ghost use Rattle.html_text.specs.Fragments.{fragment_text};

/// A part of a page that is the same in all pages: markup, and the texts around it.
#[derive(Clone, Copy, Debug, PartialEq, Eq)]
pub enum Fragment {
    /// What stands before the name in the title.
    Head,
    /// The end of the title, and the style of both pages.
    Style,
    /// The style of both pages: text and lists.
    StyleText,
    /// The style of both pages: tables, what is folded, and bytes.
    StyleTables,
    /// The style of a check: boxes.
    StyleCheck,
    /// The style of a check: lines, marks and paper, and what stands before the ruler of lines of up to 240 places.
    StyleLines,
    /// What stands before the ruler of longer lines.
    StyleLong,
    /// `"; }`.
    StyleRulerEnd,
    /// The style of a check with more than 1,000 faults and remarks.
    StyleMany,
    /// The end of the style, before the heading.
    StyleEnd,
    /// `</h1>`.
    H1End,
    /// `<p class="outcome"><span class="bad">Refused</span> by <a href="#`.
    Refused,
    /// `</a>, at line`.
    RefusedLine,
    /// Behind the line of the fault for which a file is refused.
    RefusedEnd,
    /// `<p class="outcome">No faults in`.
    Clean,
    /// `<p class="outcome"><span class="bad">Faults</span> in`.
    Faulty,
    /// `of`.
    FaultyOf,
    /// `transactions.</p>`.
    FaultyEnd,
    /// `<dl>`.
    Facts,
    /// `<dt>submitter</dt><dd><code>`.
    Submitter,
    /// `</code></dd>`.
    SubmitterEnd,
    /// `<dt>created</dt><dd>`.
    Created,
    /// `<dt>groups</dt><dd>`.
    Groups,
    /// `<dt>transactions</dt><dd>`.
    Transactions,
    /// `<dt>faults</dt><dd><a href="#faults">`.
    Faults,
    /// `<dt>remarks</dt><dd><a href="#remarks">`.
    Remarks,
    /// `</a></dd>`.
    ADd,
    /// `</dd>`.
    Dd,
    /// `</dl>`.
    FactsEnd,
    /// The heading of the index by rule.
    Rules,
    /// `<tr><th scope="row">`.
    Rule,
    /// `</th><td><details><summary>`.
    RuleTitle,
    /// `</summary><dl id="`.
    RulePage,
    /// `"><dt>requires</dt><dd>`.
    RuleRequires,
    /// `</dd><dt>broken by</dt><dd>`.
    RuleBroken,
    /// `</dd><dt>fixed by</dt><dd>`.
    RuleFixed,
    /// `</dd></dl></details></td><td class="number"><a href="#`.
    RuleCount,
    /// `</a></td></tr>`.
    RuleEnd,
    /// `.1">`.
    First,
    /// `">`.
    To,
    /// `</tbody> </table>`.
    RulesEnd,
    /// `<h2 id="faults">Faults</h2>`.
    FaultsHead,
    /// What the signs in a line mean, before a marked blank.
    Signs,
    /// The same, before the sign of a place behind the end.
    SignsBeyond,
    /// The rest of it.
    SignsEnd,
    /// `<h2 id="remarks">Remarks: these break no rule</h2>`.
    RemarksHead,
    /// `<section> <h3>Line`.
    Section,
    /// `:`.
    Colon,
    /// `</h3>`.
    H3End,
    /// `<pre><code>`.
    Pre,
    /// `<pre class="long" tabindex="0"><code>`.
    PreLong,
    /// `</code></pre>`.
    PreEnd,
    /// `<p class="dim">4096 bytes are shown; the line has`.
    Cut,
    /// `</p>`.
    PEnd,
    /// `</section>`.
    SectionEnd,
    /// `<mark>`.
    Mark,
    /// `<mark id="byte">`.
    MarkByte,
    /// `</mark>`.
    MarkEnd,
    /// `<h4 id="`.
    Fault,
    /// `"><a href="#`.
    FaultRule,
    /// `</a>`.
    FaultText,
    /// `<small>`.
    FaultOf,
    /// `, <a href="#`.
    FaultNext,
    /// `">next`.
    FaultNextEnd,
    /// `</small>`.
    FaultSmallEnd,
    /// `</a></small>`.
    FaultNextClose,
    /// `</h4>`.
    H4End,
    /// `<p>byte`.
    Byte,
    /// `, position <a href="#byte">`.
    ByteLine,
    /// `</a> of the line,`.
    ByteLineEnd,
    /// `, position`, of a byte that is not shown.
    ByteBehind,
    /// `of the line,`.
    ByteBehindEnd,
    /// `of the file</p>`.
    ByteEnd,
    /// `<p>`.
    Field,
    /// `, start`.
    FieldStart,
    /// `, length`.
    FieldLength,
    /// `: <code>`.
    FieldBytes,
    /// `</code></p>`.
    FieldEnd,
    /// `<p>expected:`.
    Expected,
    /// `<p><span class="dim">remark:</span>`.
    Remark,
    /// `</main> </body> </html>`.
    End,
    /// The style of a summary.
    StyleSummary,
    /// `<h2>`.
    Table,
    /// `</h2> <table> <thead><tr><th scope="col">`.
    TableHead,
    /// `</th><th scope="col" class="number">`.
    TableNumber,
    /// `</th><th scope="col">whole bar:`.
    TableBar,
    /// `</th></tr></thead> <tbody>`.
    TableBody,
    /// `<tr><th scope="row">`.
    Row,
    /// `</th><td class="number">`.
    RowNumber,
    /// `</td><td><svg viewBox="0 0 320 10" preserveAspectRatio="none" role="img" aria-label="`.
    RowBar,
    /// `of`.
    RowBarOf,
    /// `"><rect width="`.
    RowRect,
    /// `" height="10"/></svg></td></tr>`.
    RowEnd,
    /// `</tbody> </table>`.
    TableEnd,
    /// `: purvilgo check`.
    CheckTitle,
    /// `Check of`.
    CheckOf,
    /// `: purvilgo summary`.
    SummaryTitle,
    /// `Summary of`.
    SummaryOf,
    /// A blank.
    Space,
    /// `-`.
    Dash,
    /// `:`.
    TimeColon,
    /// `.`.
    Dot,
    /// `of`.
    Of,
    /// `<b>`.
    ByteBox,
    /// `</b>`.
    ByteBoxEnd,
    /// `<dt>`.
    Label,
    /// `</dt><dd>`.
    LabelEnd,
    /// `<code>`.
    Code,
    /// `</code>`.
    CodeEnd,
    /// `....:`.
    RulerTen,
    /// `\A`.
    RulerRow,
    /// A blank in a marked field: a middle dot, in UTF-8.
    Blank,
    /// A place behind the end of a line: a not sign, in UTF-8.
    Beyond,
}

/// The bytes of a fragment.
#[inline(always)]
#[tactic(auto, unfolding(crate::specs::Fragments::fragment_text))]
pub fn markup(fragment: Fragment) -> &'static [u8]
    ensures { result.now ≡ fragment_text fragment }
{
    match fragment {
        Fragment::Head =>
            b"<!DOCTYPE html>\n<html lang=\"en\">\n<head>\n<meta charset=\"utf-8\">\n<meta name=\"viewport\" content=\"width=device-width, initial-scale=1\">\n<meta http-equiv=\"Content-Security-Policy\" content=\"default-src 'none'; style-src 'unsafe-inline'\">\n<title>",
        Fragment::Style =>
            b"</title>\n<style>\n:root { color-scheme: light dark; --paper: #fff; --ink: #1a1a1a; --dim: #5c5c5c; --line: #c8c8c8; --box: #f5f5f4; --mark: #ffe08a; --link: #0b4fa8; --bad: #a4161a; }\n@media (prefers-color-scheme: dark) { :root { --paper: #16181a; --ink: #e6e6e3; --dim: #a3a6a8; --line: #44484c; --box: #1f2225; --mark: #6b5200; --link: #8fbcff; --bad: #ff9c94; } }\nbody { margin: 0 auto; padding: 1rem 1.25rem 4rem; max-width: 60rem; background: var(--paper); color: var(--ink); font: 1rem/1.45 system-ui, sans-serif; }\nh1, h2, h3, h4, p, dl, dd, table { margin: 0; }\nh1 { font-size: 1.4rem; overflow-wrap: anywhere; margin-bottom: .5rem; }\nh2 { font-size: 1.15rem; margin: 2rem 0 .5rem; }\nh3 { font-size: 1rem; }\nh4 { font-size: 1rem; margin-top: .5rem; }\n",
        Fragment::StyleText =>
            b"a { color: var(--link); }\n:target { outline: 2px solid var(--link); outline-offset: 3px; }\n.outcome { font-size: 1.15rem; margin: -.25rem 0 .75rem; }\n.bad { color: var(--bad); font-weight: 600; }\n.outcome + .dim { margin-top: -.5rem; }\n.dim + dl { margin-top: .75rem; }\n.dim, small { color: var(--dim); font-size: .875rem; font-weight: normal; }\ndl { display: grid; grid-template-columns: max-content 1fr; gap: .1rem 1rem; }\ndt { color: var(--dim); }\ntable { border-collapse: collapse; }\nth, td { text-align: left; vertical-align: top; padding: .2rem 1rem .2rem 0; border-bottom: 1px solid var(--line); font-weight: normal; }\nthead th { color: var(--dim); font-size: .875rem; text-align: left; }\n",
        Fragment::StyleTables =>
            b".number { text-align: right; font-variant-numeric: tabular-nums; white-space: nowrap; }\nsummary { cursor: pointer; }\ndetails dl { padding: .2rem 0 .4rem 1rem; scroll-margin-top: 4rem; }\ncode { font: .9375rem ui-monospace, \"DejaVu Sans Mono\", Consolas, Menlo, monospace; }\nb { display: inline-block; width: 1.6ch; font-size: .625em; line-height: 1.05; font-weight: normal; text-align: center; white-space: normal; word-break: break-all; vertical-align: middle; outline: 1px solid var(--dim); outline-offset: -1px; }\n",
        Fragment::StyleCheck =>
            b"section { border-top: 1px solid var(--line); padding: .75rem .5rem; margin: 0 -.5rem; }\nsection p, h4 { scroll-margin-top: 12rem; }\nsection p, section p code { white-space: pre-wrap; overflow-wrap: anywhere; }\npre { margin: .4rem 0 0; padding: .9rem .75rem 0; background: var(--box); overflow: auto; max-height: 10.5rem; }\npre + p { margin-top: .4rem; }\nh2 + .dim { margin-bottom: .75rem; }\nmark#byte { scroll-margin: 5rem; }\npre code { display: block; position: relative; width: 80.5ch; font-size: 1rem; line-height: 2.6em; white-space: break-spaces; line-break: anywhere; }\nmark { background: var(--mark); color: inherit; outline: 1px solid; }\n",
        Fragment::StyleLines =>
            b"mark::before, mark::after { position: absolute; width: 1px; height: 1px; overflow: hidden; clip-path: inset(50%); white-space: pre; }\nmark::before { content: \" from here: \"; }\nmark::after { content: \" to here. \"; }\n@media print { :root { font-size: 10pt; } body { max-width: none; padding: 0; } pre { max-height: none; overflow: visible; border: 1px solid var(--line); } pre code { font-size: 9pt; } section { break-inside: avoid; } details:not([open]) summary { list-style: none; } }\npre code::before { position: absolute; inset: -1.15em 0 1.15em; overflow: hidden; color: var(--dim); white-space: pre; content: var(--ruler); }\n@supports (content: \"x\" / \"\") { pre code::before { content: var(--ruler) / \"\"; } }\npre { --ruler: \"",
        Fragment::StyleLong => b"\"; }\npre.long { --ruler: \"",
        Fragment::StyleRulerEnd => b"\"; }\n",
        Fragment::StyleMany =>
            b"section { content-visibility: auto; contain-intrinsic-size: auto 4.5rem; }\n",
        Fragment::StyleEnd => b"</style>\n</head>\n<body>\n<main>\n<h1>",
        Fragment::H1End => b"</h1>\n",
        Fragment::Refused =>
            b"<p class=\"outcome\"><span class=\"bad\">Refused</span> by <a href=\"#",
        Fragment::RefusedLine => b"</a>, at line ",
        Fragment::RefusedEnd =>
            b".</p>\n<p class=\"dim\">Nothing of a refused file is registered. Only its first fault is known: mend it, and check again.</p>\n",
        Fragment::Clean => b"<p class=\"outcome\">No faults in ",
        Fragment::Faulty => b"<p class=\"outcome\"><span class=\"bad\">Faults</span> in ",
        Fragment::FaultyOf => b" of ",
        Fragment::FaultyEnd => b" transactions.</p>\n",
        Fragment::Facts => b"<dl>\n",
        Fragment::Submitter => b"<dt>submitter</dt><dd><code>",
        Fragment::SubmitterEnd => b"</code></dd>\n",
        Fragment::Created => b"<dt>created</dt><dd>",
        Fragment::Groups => b"<dt>groups</dt><dd>",
        Fragment::Transactions => b"<dt>transactions</dt><dd>",
        Fragment::Faults => b"<dt>faults</dt><dd><a href=\"#faults\">",
        Fragment::Remarks => b"<dt>remarks</dt><dd><a href=\"#remarks\">",
        Fragment::ADd => b"</a></dd>\n",
        Fragment::Dd => b"</dd>\n",
        Fragment::FactsEnd => b"</dl>\n",
        Fragment::Rules =>
            b"<h2 id=\"rules\">By rule</h2>\n<table>\n<thead><tr><th scope=\"col\">Rule</th><th scope=\"col\">What is wrong; unfold it for what the rule requires</th><th scope=\"col\" class=\"number\">Faults</th></tr></thead>\n<tbody>\n",
        Fragment::Rule => b"<tr><th scope=\"row\">",
        Fragment::RuleTitle => b"</th><td><details><summary>",
        Fragment::RulePage => b"</summary><dl id=\"",
        Fragment::RuleRequires => b"\"><dt>requires</dt><dd>",
        Fragment::RuleBroken => b"</dd><dt>broken by</dt><dd>",
        Fragment::RuleFixed => b"</dd><dt>fixed by</dt><dd>",
        Fragment::RuleCount => b"</dd></dl></details></td><td class=\"number\"><a href=\"#",
        Fragment::RuleEnd => b"</a></td></tr>\n",
        Fragment::First => b".1\">",
        Fragment::To => b"\">",
        Fragment::RulesEnd => b"</tbody>\n</table>\n",
        Fragment::FaultsHead => b"<h2 id=\"faults\">Faults</h2>\n",
        Fragment::Signs =>
            b"<p class=\"dim\">Each row has 80 bytes of the line. In the ruler above it, the last digit of each number stands over that position. In a marked field <code><mark>",
        Fragment::SignsBeyond => b"</mark></code> is a blank. <code>",
        Fragment::SignsEnd =>
            b"</code> is a position behind the end of the line. Two small digits are one byte that is not printable ASCII, in hexadecimal: <code><b>09</b></code> is a TAB, <code><b>C3</b><b>89</b></code> an accented letter in UTF-8.</p>\n",
        Fragment::RemarksHead => b"<h2 id=\"remarks\">Remarks: these break no rule</h2>\n",
        Fragment::Section => b"<section>\n<h3>Line ",
        Fragment::Colon => b": ",
        Fragment::H3End => b"</h3>\n",
        Fragment::Pre => b"<pre><code>",
        Fragment::PreLong => b"<pre class=\"long\" tabindex=\"0\"><code>",
        Fragment::PreEnd => b"</code></pre>\n",
        Fragment::Cut => b"<p class=\"dim\">4096 bytes are shown; the line has ",
        Fragment::PEnd => b"</p>\n",
        Fragment::SectionEnd => b"</section>\n",
        Fragment::Mark => b"<mark>",
        Fragment::MarkByte => b"<mark id=\"byte\">",
        Fragment::MarkEnd => b"</mark>",
        Fragment::Fault => b"<h4 id=\"",
        Fragment::FaultRule => b"\"><a href=\"#",
        Fragment::FaultText => b"</a> ",
        Fragment::FaultOf => b" <small>",
        Fragment::FaultNext => b", <a href=\"#",
        Fragment::FaultNextEnd => b"\">next ",
        Fragment::FaultSmallEnd => b"</small>",
        Fragment::FaultNextClose => b"</a></small>",
        Fragment::H4End => b"</h4>\n",
        Fragment::Byte => b"<p>byte ",
        Fragment::ByteLine => b", position <a href=\"#byte\">",
        Fragment::ByteLineEnd => b"</a> of the line, ",
        Fragment::ByteBehind => b", position ",
        Fragment::ByteBehindEnd => b" of the line, ",
        Fragment::ByteEnd => b" of the file</p>\n",
        Fragment::Field => b"<p>",
        Fragment::FieldStart => b", start ",
        Fragment::FieldLength => b", length ",
        Fragment::FieldBytes => b": <code>",
        Fragment::FieldEnd => b"</code></p>\n",
        Fragment::Expected => b"<p>expected: ",
        Fragment::Remark => b"<p><span class=\"dim\">remark:</span> ",
        Fragment::End => b"</main>\n</body>\n</html>\n",
        Fragment::StyleSummary =>
            b"td { vertical-align: middle; }\nsvg { display: block; width: 20rem; max-width: 40vw; height: .8rem; border: 1px solid var(--line); fill: currentColor; }\n@media print { :root { font-size: 10pt; } body { max-width: none; padding: 0; } table { break-inside: avoid; } }\n",
        Fragment::Table => b"<h2>",
        Fragment::TableHead => b"</h2>\n<table>\n<thead><tr><th scope=\"col\">",
        Fragment::TableNumber => b"</th><th scope=\"col\" class=\"number\">",
        Fragment::TableBar => b"</th><th scope=\"col\">whole bar: ",
        Fragment::TableBody => b"</th></tr></thead>\n<tbody>\n",
        Fragment::Row => b"<tr><th scope=\"row\">",
        Fragment::RowNumber => b"</th><td class=\"number\">",
        Fragment::RowBar =>
            b"</td><td><svg viewBox=\"0 0 320 10\" preserveAspectRatio=\"none\" role=\"img\" aria-label=\"",
        Fragment::RowBarOf => b" of ",
        Fragment::RowRect => b"\"><rect width=\"",
        Fragment::RowEnd => b"\" height=\"10\"/></svg></td></tr>\n",
        Fragment::TableEnd => b"</tbody>\n</table>\n",
        Fragment::CheckTitle => b": purvilgo check",
        Fragment::CheckOf => b"Check of ",
        Fragment::SummaryTitle => b": purvilgo summary",
        Fragment::SummaryOf => b"Summary of ",
        Fragment::Space => b" ",
        Fragment::Dash => b"-",
        Fragment::TimeColon => b":",
        Fragment::Dot => b".",
        Fragment::Of => b" of ",
        Fragment::ByteBox => b"<b>",
        Fragment::ByteBoxEnd => b"</b>",
        Fragment::Label => b"<dt>",
        Fragment::LabelEnd => b"</dt><dd>",
        Fragment::Code => b"<code>",
        Fragment::CodeEnd => b"</code>",
        Fragment::RulerTen => b"....:",
        Fragment::RulerRow => b"\\A ",
        Fragment::Blank => b"\xC2\xB7",
        Fragment::Beyond => b"\xC2\xAC",
    }
}
