//! The templates of a sheet of plays: HTML with places `{name}` for values. Others are those of `sheets`.
//!
//! The page has two styles, that of a sheet and STYLE. HEAD has the hash of each, put there by `bench/sheet/hash.py`.

ghost use Rattle.play_sheets.specs.Places.{ValuesStandBetweenTags};

/// The head of a page, up to the style of a sheet. Its policy names the SHA-256 of both styles: a browser takes no
/// other style.
pub const HEAD: &[u8] = br#"<!DOCTYPE html>
<html lang="en">
<head>
<meta charset="utf-8">
<meta http-equiv="Content-Security-Policy" content="default-src 'none';
  style-src 'sha256-ohKmwkAUd72clqJphImkSWhmV57ePUukjBq2XQOMVLE='
  'sha256-jRhtCotm2Ys0LOXOhisNWjQ1E6UnPtYm7t2xltk/+rM='; base-uri 'none'; form-action 'none'">
<meta name="viewport" content="width=device-width, initial-scale=1">
<title>Recorded plays</title>
<style>"#;

/// From the style of a sheet to STYLE.
pub const NEXT_STYLE: &[u8] = br#"</style>
<style>"#;

/// What the style of a sheet lacks for plays.
pub const STYLE: &[u8] = br#"article { width: calc(50% - 2mm); min-height: 0;
  grid-template: "name facts" auto "deal deal" auto "play play" 1fr "stop stop" auto / minmax(0, 1fr) auto }
.deal { width: 76mm; justify-self: center; margin-bottom: .5mm; line-height: 1.15 }
.compass .declares { background: #c6d6cb; font-weight: bold }
table { grid-area: play; align-self: start; width: 100%; font-size: 12px; line-height: 13.5px }
tr { border-top: 1px solid #dde4ea } tr:first-child, .lost { border-top-color: #678 }
td, th { width: 18%; padding: 0 0 0 1.2em; text-align: left; white-space: nowrap; font-weight: normal }
th { color: #456 } th[scope="row"], th:first-child, th:last-child, td:last-child { width: auto; padding: 0 1mm;
  text-align: right }
td:last-child, .lost td { font-weight: bold } .lost td { padding-left: 0 } td:last-child { font-size: 10px }
td small { color: #900; border: 1px solid; font-size: 10px; font-weight: bold; padding: 0 2px; margin-left: 3px }
td > b { background: #dfe7e2; padding: 0 2px; margin-left: -2px }
i { float: left; width: 1.1em; margin-left: -1.1em; font-style: normal; color: #456 }
em { font-style: normal; font-weight: bold; text-decoration: underline 2px }
.stop { grid-area: stop; font-size: 11px; border-top: 1px solid #678 }
@media screen and (max-width: 185mm) { article { width: calc(100% - 2mm) } }
@media print { article { min-height: 0 } }"#;

/// From the styles to the first game.
pub const BODY: &[u8] = br#"</style>
</head>
<body>
<header>
<h1>Recorded plays</h1>
<p class="key">Makes: declarer's tricks in all if both sides play best from there. &rtrif; leads.
Shaded: wins the trick. Underlined, -1: loses a trick. HCP: honour points.</p>
</header>
<main>"#;

/// Who plays the contract.
pub const DECLARER: &[u8] = br#"<p>Declarer <b>{declarer}</b></p>"#;

/// The contract, and the beginning of the hands.
pub const CONTRACT: &[u8] = br#"<p>Contract <b>{contract}</b></p>"#;

/// The seat of the compass that declares.
pub const DECLARES: &[u8] = br#"<span class="declares">{seat}</span>"#;

/// The beginning of the table, with the number before the first card.
pub const TABLE: &[u8] = br#"</div>
<table>
<tr>
<th scope="col">Trick</th>
<th scope="col">W</th>
<th scope="col">N</th>
<th scope="col">E</th>
<th scope="col">S</th>
<th scope="col">Makes</th>
</tr>
<tr>
<th scope="row">Start</th>
<td></td>
<td></td>
<td></td>
<td></td>
<td>{tricks}</td>
</tr>"#;

/// The beginning of a trick's row.
pub const ROW: &[u8] = br#"<tr>
<th scope="row">{trick}</th>"#;

/// The beginning of the cell of a card.
pub const CELL: &[u8] = br#"<td>"#;

/// The mark of the card that is led.
pub const LEADS: &[u8] = br#"<i>&rtrif;</i>"#;

/// The beginning of the card that wins the trick.
pub const WINS: &[u8] = br#"<b>"#;

/// The end of the card that wins the trick.
pub const WINS_END: &[u8] = br#"</b>"#;

/// The beginning of a card that loses tricks.
pub const LOSES: &[u8] = br#"<em>"#;

/// The end of a card that loses tricks, with their number.
pub const LOSS: &[u8] = br#"</em><small>-{lost}</small>"#;

/// A spade.
pub const SPADE: &[u8] = br#"<span>&spades;</span>{rank}"#;

/// A heart.
pub const HEART: &[u8] = br#"<span class="red">&hearts;</span>{rank}"#;

/// A diamond.
pub const DIAMOND: &[u8] = br#"<span class="red">&diams;</span>{rank}"#;

/// A club.
pub const CLUB: &[u8] = br#"<span>&clubs;</span>{rank}"#;

/// The end of the cell of a card.
pub const CELL_END: &[u8] = br#"</td>"#;

/// The cell of a number of tricks.
pub const NUMBER: &[u8] = br#"<td>{tricks}</td>"#;

/// The beginning of the row of totals.
pub const TOTALS: &[u8] = br#"<tr class="lost">
<th scope="row">Lost</th>"#;

/// The end of the row of totals and of the table.
pub const TABLE_END: &[u8] = br#"<td></td>
</tr>
</table>"#;

/// The beginning of what is said of a card that isn't legal: its trick.
pub const ILLEGAL: &[u8] = br#"<p class="stop">illegal {trick} "#;

/// The seat whose turn it is. The card follows.
pub const TURN: &[u8] = br#"{seat} "#;

/// A card that no seat holds.
pub const NOT_HELD: &[u8] = br#": not held</p>"#;

/// A card that another seat holds.
pub const HELD_BY: &[u8] = br#": held by {seat}</p>"#;

/// A card of another suit than the one led, of which the player has a card. That suit follows.
pub const HOLDS: &[u8] = br#": holds "#;

/// The end of what is said of a card that isn't legal.
pub const HOLDS_END: &[u8] = br#"</p>"#;

/// What a game lacks, so that its play can't be followed.
pub const LACK: &[u8] = br#"<p class="stop">{lack}</p>"#;

/// Values stand only between tags, in each template. This is a law: the function does nothing.
pub fn values_stand_between_tags()
    ensures { ValuesStandBetweenTags }
{}
