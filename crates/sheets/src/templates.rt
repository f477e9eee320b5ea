//! The templates of a sheet: HTML with places `{name}` for values.
//!
//! The style is the text of an element, and HEAD has its hash, which `bench/sheet/hash.py` puts there. How a sheet is
//! read by its elements (`sheet_reading`) follows the tags and the words here. In what place a browser puts a hand, and
//! whether it shows it, the style alone says.

ghost use Rattle.sheets.specs.Places.{ValuesStandBetweenTags};

/// The head of a page, up to its style. Its policy names the SHA-256 of STYLE: a browser takes no other style.
pub const HEAD: &[u8] = br#"<!DOCTYPE html>
<html lang="en">
<head>
<meta charset="utf-8">
<meta http-equiv="Content-Security-Policy" content="default-src 'none';
  style-src 'sha256-ohKmwkAUd72clqJphImkSWhmV57ePUukjBq2XQOMVLE='; base-uri 'none'; form-action 'none'">
<meta name="viewport" content="width=device-width, initial-scale=1">
<title>Hand record {event}</title>
<style>"#;

/// The style of all elements.
pub const STYLE: &[u8] = br#"@page { margin: 8mm }
* { box-sizing: border-box; margin: 0; padding: 0 }
body { font: 13px/1.2 "DejaVu Sans Condensed", "Helvetica Neue", Arial, sans-serif; color: #111; background: #fff;
  max-width: 198mm; margin: 0 auto; padding: 2mm 1mm }
body > header { display: flex; flex-wrap: wrap; align-items: baseline; justify-content: space-between; gap: 0 1em;
  border-bottom: 2px solid #234; padding-bottom: 1mm; margin: 0 1mm 2mm; overflow-wrap: anywhere }
h1 { font-size: 17px } .key { width: 100%; font-size: 11px }
main { orphans: 1; widows: 1 }
main > h2 { font-size: 15px; margin: 0 1mm 1mm; break-after: avoid; overflow-wrap: anywhere }
article { border: 1px solid #678; border-radius: 3px; padding: 1mm 1.5mm; margin: 0 1mm 2mm; break-inside: avoid;
  display: inline-grid; vertical-align: top; width: calc(100% / 3 - 2mm); min-height: 78mm;
  grid-template: "name facts" auto "deal deal" 1fr "foot foot" auto / 1fr auto }
article h2 { grid-area: name; font-size: 18px; line-height: 1.1; overflow-wrap: anywhere }
.facts { grid-area: facts; text-align: right; font-size: 11px; line-height: 20px }
.facts p { display: inline-block; margin-left: .8em }
.deal { grid-area: deal; align-self: center; position: relative; display: grid; gap: 0 1mm; align-items: center;
  grid-template: ". N N" auto "W x E" auto ". S S" auto / minmax(0, 1fr) 12mm minmax(0, 1fr) }
.deal ul { list-style: none; padding-left: 12px; word-break: break-all }
.deal li { padding-left: 1em; text-indent: -1em }
.deal b { display: inline-block; width: 1em; text-indent: 0; font-weight: normal }
.deal .seat { float: left; width: 12px; margin-left: -12px; padding: 0; text-indent: 0; font-size: 11px;
  line-height: 16px; font-weight: bold }
.deal .points, .deal::after { position: absolute; width: 2em; padding: 0; text-indent: 0; text-align: center;
  font-size: 11px }
.deal::after { content: "HCP"; top: 4.5mm; left: 5mm; font-size: 8px; line-height: 13px; width: 22px }
ul:nth-of-type(1) .points { top: .8mm; left: 5mm } ul:nth-of-type(2) .points { top: 4.5mm; left: 10mm }
ul:nth-of-type(3) .points { top: 8.2mm; left: 5mm } ul:nth-of-type(4) .points { top: 4.5mm; left: 0 }
.red { color: #b00 }
ul:nth-of-type(1) { grid-area: N } ul:nth-of-type(2) { grid-area: E }
ul:nth-of-type(3) { grid-area: S } ul:nth-of-type(4) { grid-area: W }
.compass { grid-area: x; width: 12mm; height: 12mm; display: grid; font-size: 10px; border: 1px solid #678;
  background: #eef4ef; grid-template: repeat(3, 1fr) / repeat(3, 1fr) }
.compass span { display: grid; place-items: center; border: 0 solid #b00 }
.compass span:nth-child(1) { grid-area: 1 / 1 / 2 / 4 } .compass span:nth-child(2) { grid-area: 1 / 1 / 4 / 2 }
.compass span:nth-child(3) { grid-area: 1 / 3 / 4 / 4 } .compass span:nth-child(4) { grid-area: 3 / 1 / 4 / 4 }
.compass .exposed:nth-child(1) { border-top-width: 3px } .compass .exposed:nth-child(2) { border-left-width: 3px }
.compass .exposed:nth-child(3) { border-right-width: 3px } .compass .exposed:nth-child(4) { border-bottom-width: 3px }
.compass .deals { background: radial-gradient(circle, #234 2mm, #0000 2.1mm); color: #fff; font-weight: bold }
footer { grid-area: foot; display: flex; justify-content: space-between; align-items: end; gap: 1mm;
  border-top: 1px solid #9ab; padding-top: .5mm; line-height: 1.12 }
footer p { text-align: right; overflow-wrap: anywhere; font-size: 11px }
table { border-collapse: collapse; flex: none }
td, th { width: 1.5em; text-align: center } th { font-weight: normal }
th[scope="row"] { width: 1.1em; text-align: left }
td { font-weight: bold } td small { color: #555; font-size: .92em; font-weight: normal }
.read { position: absolute; width: 1px; height: 1px; overflow: hidden; clip-path: inset(50%) }
@media screen and (max-width: 185mm) { article { width: calc(50% - 2mm) } }
@media screen and (max-width: 125mm) { article { width: calc(100% - 2mm); min-height: 0 } }
@media print {
  body { max-width: none; padding: 0 } * { print-color-adjust: exact; -webkit-print-color-adjust: exact }
  main { -webkit-box-decoration-break: clone; box-decoration-break: clone; padding-bottom: 5mm }
  article { min-height: calc((100vh - 24mm) / 3 - 2mm) } footer { font-size: calc(100vh / 76) }
  .key { position: fixed; bottom: 0; left: 1mm }
}"#;

/// From the style to the first board.
pub const BODY: &[u8] = br#"</style>
</head>
<body>
<header>
<h1>Hand record <bdi>{event}</bdi></h1>
<p><bdi>{site}</bdi> <bdi>{date}</bdi></p>
<p class="key">Double-dummy results. Bold: the level that declarer makes. (6): tricks, if no level makes.
HCP: honour points. Disc: dealer. Red side: vulnerable.</p>
</header>
<main>"#;

/// The heading of the boards of another event or section, with what is new of the two.
pub const GROUP: &[u8] = br#"<h2><bdi>{event}</bdi> <bdi>{section}</bdi></h2>"#;

/// The beginning of a board.
pub const BOARD: &[u8] = br#"<article>
<h2>{name}</h2>"#;

/// The beginning of who deals and who is vulnerable.
pub const FACTS: &[u8] = br#"<div class="facts">"#;

/// Who deals, if that is known.
pub const DEALER: &[u8] = br#"<p>Dealer <b>{dealer}</b></p>"#;

/// Who is vulnerable, if that is known.
pub const VULNERABLE: &[u8] = br#"<p>Vul <b>{sides}</b></p>"#;

/// The beginning of the hands, with the compass.
pub const COMPASS: &[u8] = br#"</div>
<div class="deal">
<div class="compass" aria-hidden="true">"#;

/// A seat of the compass.
pub const SEAT: &[u8] = br#"<span>{seat}</span>"#;

/// The seat that deals.
pub const DEALS: &[u8] = br#"<span class="deals">{seat}</span>"#;

/// A seat that is vulnerable.
pub const EXPOSED: &[u8] = br#"<span class="exposed">{seat}</span>"#;

/// The seat that deals and is vulnerable.
pub const DEALS_EXPOSED: &[u8] = br#"<span class="deals exposed">{seat}</span>"#;

/// From the compass to the first hand.
pub const HANDS: &[u8] = br#"</div>"#;

/// A hand: the letter of its seat, its cards, and its honour points.
pub const HAND: &[u8] = br#"<ul>
<li class="seat">{seat}</li>
<li><b>&spades;</b>{spades}</li>
<li><b class="red">&hearts;</b>{hearts}</li>
<li><b class="red">&diams;</b>{diamonds}</li>
<li><b>&clubs;</b>{clubs}</li>
<li class="points">{points}</li>
</ul>"#;

/// From the last hand to the table.
pub const FOOT: &[u8] = br#"</div>
<footer>"#;

/// The beginning of a complete table.
pub const TABLE: &[u8] = br#"<table>
<tr>
<th scope="col"><span class="read">Declarer</span></th>
<th scope="col">&clubs;</th>
<th scope="col" class="red">&diams;</th>
<th scope="col" class="red">&hearts;</th>
<th scope="col">&spades;</th>
<th scope="col">NT</th>
</tr>"#;

/// The beginning of a declarer's row.
pub const ROW: &[u8] = br#"<tr>
<th scope="row">{declarer}</th>"#;

/// A result: the level that makes, or the tricks in parentheses if there is none.
pub const CELL: &[u8] = br#"<td>{level}<small>{tricks}</small></td>"#;

/// The end of a row.
pub const ROW_END: &[u8] = br#"</tr>"#;

/// The end of a table.
pub const TABLE_END: &[u8] = br#"</table>"#;

/// What stands in place of an incomplete table.
pub const INCOMPLETE: &[u8] = br#"<p>Table incomplete: <b>{known}</b> of 20 results are known</p>"#;

/// Par, and the par contracts.
pub const PAR: &[u8] = br#"<p>Par <b>{score}</b><br>{contracts}</p>"#;

/// What stands in place of a par that is unknown.
pub const PAR_UNKNOWN: &[u8] = br#"<p>Par unknown: no <b>{lacks}</b></p>"#;

/// The end of what stands below the hands.
pub const FOOT_END: &[u8] = br#"</footer>"#;

/// The end of a board.
pub const BOARD_END: &[u8] = br#"</article>"#;

/// The end of a page.
pub const END: &[u8] = br#"</main>
</body>
</html>
"#;

/// Values stand only between tags, in each template. This is a law: the function does nothing.
pub fn values_stand_between_tags()
    ensures { ValuesStandBetweenTags }
{}
