// What charts draw.
use crate::traces::{second_barrier, stored, torn, two_grants};
use ace_chart::{Below, Chart, chart_text, row_numbers};
use ace_chart_rows::{ChartErr, Selection, chart_of, chosen_line};
use ace_codes::LineState;
use ace_event::{Event, Header};
use ace_io::StdSource;
use ace_side_facts::{Query, read_facts};
use std::alloc::Global;
use std::test::Fail;

/// Two ACE ports.
const HEADER: Header = Header {
    version: 2,
    ports: 2,
    ace: 3,
};

/// The line that a chart of the trace is of where none is asked for.
fn chosen(alloc: Global, events: &[Event]) -> Option<Option<u32>> {
    chosen_line(alloc, HEADER, events).ok()
}

#[test]
fn chooses_lines(rt: HostRuntime) {
    assert!(rt; chosen(rt.alloc(), &two_grants()) == Some(Some(64)));
    assert!(rt; chosen(rt.alloc(), &stored()) == Some(Some(128)));
    assert!(rt; chosen(rt.alloc(), &second_barrier()) == Some(None));
    assert!(rt; chosen(rt.alloc(), &[]) == Some(None));
}

/// The numbers of the rows, up to eight, and of the event that breaks a rule; 0 where there is
/// none.
fn numbers(chart: &Chart) -> ([u64; 8], u64) {
    let mut numbers = [0; 8];
    for (place, row) in chart.rows.iter().take(8).enumerate() {
        numbers[place] = row.number;
    }
    let stop = match &chart.stop {
        Some(row) => row.number,
        None => 0,
    };
    (numbers, stop)
}

/// The same of the chart of a line, or why there is none.
fn drawn(
    alloc: Global,
    events: &[Event],
    line: Option<u32>,
    most: usize,
) -> Result<([u64; 8], u64), ChartErr> {
    if most > 1_000_000 {
        return Err(ChartErr::TooManyRows);
    }
    let chart = chart_of(alloc, HEADER, events, line, &Selection::whole(), most)?;
    Ok(numbers(&chart))
}

#[test]
fn draws_the_events_of_a_line(rt: HostRuntime) {
    let alloc = rt.alloc();
    let line = [2, 3, 4, 8, 9, 0, 0, 0];
    let all = [1, 2, 3, 4, 8, 9, 0, 0];
    let three = [1, 2, 3, 0, 0, 0, 0, 0];
    assert!(rt; drawn(alloc, &two_grants(), Some(64), 400) == Ok((three, 4)));
    assert!(rt; drawn(alloc, &two_grants(), Some(128), 400) == Ok(([0; 8], 4)));
    assert!(rt; drawn(alloc, &two_grants(), None, 3) == Ok((three, 4)));
    assert!(rt; drawn(alloc, &two_grants(), None, 2) == Err(ChartErr::TooManyRows));
    assert!(rt; drawn(alloc, &stored(), Some(64), 5) == Ok((line, 0)));
    assert!(rt; drawn(alloc, &stored(), Some(64), 4) == Err(ChartErr::TooManyRows));
    assert!(rt; drawn(alloc, &stored(), None, 6) == Ok((all, 0)));
    assert!(rt; drawn(alloc, &[], None, 0) == Ok(([0; 8], 0)));
}

/// The states of port 0 before each of the last three events of the chart and at its end, whether
/// memory is behind then, and how many rows have a grant before their event.
fn bars(chart: &Chart) -> ([LineState; 4], bool, usize) {
    let mut states = [LineState::I; 4];
    for (place, row) in chart.rows.iter().skip(2).take(3).enumerate() {
        states[place] = row.look.states[0];
    }
    states[3] = chart.last.states[0];
    let granted = chart
        .rows
        .iter()
        .filter(|row| row.look.granted.is_some())
        .count();
    (states, chart.last.behind, granted)
}

#[test]
fn bars_end_where_states_change(rt: HostRuntime) {
    let Ok(chart) = chart_of(
        rt.alloc(),
        HEADER,
        &stored(),
        Some(64),
        &Selection::whole(),
        400,
    ) else {
        assert!(rt; false);
        return;
    };
    let told = bars(&chart);
    drop(chart);
    let wanted = [LineState::I, LineState::I, LineState::UC, LineState::UD];
    assert!(rt; told == (wanted, true, 2));
}

/// For each row of the chart how many events are left out before it, up to eight; 9 behind the
/// last row; and how many are left out behind them.
fn gaps(chart: &Chart) -> ([u64; 8], u64) {
    let mut gaps = [9; 8];
    for (place, row) in chart.rows.iter().take(8).enumerate() {
        gaps[place] = row.left_out;
    }
    (gaps, chart.left_out)
}

/// The numbers of the rows of the chart of a line, of these events and ports of it, and how many
/// events are left out.
fn selected(
    alloc: Global,
    line: Option<u32>,
    selection: &Selection,
) -> Result<([u64; 8], [u64; 8], u64), ChartErr> {
    let chart = chart_of(alloc, HEADER, &stored(), line, selection, 400)?;
    let numbers = numbers(&chart);
    let rows = numbers.0;
    let (gaps, behind) = gaps(&chart);
    drop(chart);
    Ok((rows, gaps, behind))
}

/// The events of these numbers, of port 0 or of port 1 or of all.
fn events(first: u64, last: u64, port: Option<usize>) -> Selection {
    let ports = match port {
        Some(0) => Some(one_port(0)),
        Some(_) => Some(one_port(1)),
        None => None,
    };
    Selection { first, last, ports }
}

fn one_port(port: u8) -> [bool; 32] {
    let mut ports = [false; 32];
    ports[usize::from(port % 32)] = true;
    ports
}

#[test]
fn draws_selected_events(rt: HostRuntime) {
    let alloc = rt.alloc();
    let middle = ([4, 0, 0, 0, 0, 0, 0, 0], [2, 9, 9, 9, 9, 9, 9, 9], 3);
    let front = ([2, 3, 0, 0, 0, 0, 0, 0], [0, 0, 9, 9, 9, 9, 9, 9], 6);
    let all = ([2, 3, 4, 8, 9, 0, 0, 0], [1, 0, 0, 0, 0, 9, 9, 9], 0);
    let none = ([0; 8], [9; 8], 8);
    assert!(rt; selected(alloc, Some(64), &events(4, 6, None)) == Ok(middle));
    assert!(rt; selected(alloc, Some(64), &events(0, 3, Some(0))) == Ok(front));
    assert!(rt; selected(alloc, None, &events(1, 99, Some(0))) == Ok(all));
    assert!(rt; selected(alloc, Some(64), &events(1, 99, Some(1))) == Ok(none));
}

/// The text of the chart of the trace, and whether it has these parts.
fn has(alloc: Global, events: &[Event], line: Option<u32>, parts: &[&[u8]]) -> Result<bool, Fail> {
    has_selected(alloc, events, line, &Selection::whole(), parts)
}

/// The same of the selected events.
fn has_selected(
    alloc: Global,
    events: &[Event],
    line: Option<u32>,
    selection: &Selection,
    parts: &[&[u8]],
) -> Result<bool, Fail> {
    let Ok(chart) = chart_of(alloc, HEADER, events, line, selection, 400) else {
        return Ok(false);
    };
    let below = Below {
        wrong: b"wrong",
        kept: b"kept",
        expected: b"UC",
        got: b"SD",
    };
    let Ok(text) = chart_text(alloc, &chart, b"a&b.trace", b"verdict", &below, None) else {
        return Ok(false);
    };
    Ok(has_parts(&text, parts))
}

/// The text is that of a picture, and has these parts.
fn has_parts(text: &[u8], parts: &[&[u8]]) -> bool {
    let mut all = text.ends_with(b"</svg>\n");
    for part in parts {
        all = all && !part.is_empty() && text.windows(part.len()).any(|at| at == *part);
    }
    all
}

#[test]
fn tells_values(rt: HostRuntime) -> Result<(), Fail> {
    let later: [&[u8]; 4] = [
        b">R 1-4/4 v0</text>\n",
        b">R 1/4 v0 IsShared</text>\n",
        b">D store v1</text>\n",
        b"<text class=\"stop-label\" x=\"450\" y=\"366\">R 2/4 v1 IsShared</text>\n",
    ];
    let other: [&[u8]; 1] = [b">R 2/4 v? IsShared</text>\n"];
    let all: [&[u8]; 2] = [b">R ReadOnce 1/4 IsShared</text>\n", b">D store</text>\n"];
    assert!(rt; has(rt.alloc(), &torn(2), Some(64), &later)?);
    assert!(rt; has(rt.alloc(), &torn(5), Some(64), &other)?);
    assert!(rt; has(rt.alloc(), &torn(2), None, &all)?);
    Ok(())
}

/// What a side file tells of the rows of the chart, or whether the picture with that has these
/// parts.
fn has_beside(alloc: Global, bytes: &[u8], parts: &[&[u8]]) -> Result<bool, Fail> {
    let Ok(chart) = chart_of(alloc, HEADER, &stored(), Some(64), &Selection::whole(), 400) else {
        return Ok(false);
    };
    let Ok(numbers) = row_numbers(alloc, &chart) else {
        return Ok(false);
    };
    let query = Query {
        events: numbers.as_slice(),
        notes: &[],
        lines: &[],
    };
    let mut source = StdSource::new(bytes);
    let Ok(side) = read_facts(alloc, &mut source, &query) else {
        return Ok(false);
    };
    let below = Below {
        wrong: b"",
        kept: b"",
        expected: b"",
        got: b"",
    };
    let Ok(text) = chart_text(alloc, &chart, b"t", b"v", &below, Some(&side)) else {
        return Ok(false);
    };
    drop(side);
    Ok(has_parts(&text, parts))
}

#[test]
fn draws_what_a_side_file_tells(rt: HostRuntime) -> Result<(), Fail> {
    let bytes = b"ACE SIDE 1\nUNIT ns\nPORT 00 cpu0.l2\nT 2 1200\nT 5 1236\nT 8 1250\nEND 9\n";
    let parts: [&[u8]; 6] = [
        b"viewBox=\"0 0 964 ",
        b"<text class=\"time\" x=\"12\" y=\"100\">ns</text>\n\
<text class=\"time\" x=\"12\" y=\"134\">1200</text>\n\
<text class=\"time\" x=\"12\" y=\"158\">1200</text>\n\
<text class=\"time\" x=\"12\" y=\"182\">1236</text>\n\
<text class=\"time\" x=\"12\" y=\"206\">1250</text>\n\
<text class=\"time\" x=\"12\" y=\"230\">1250</text>\n\
<g transform=\"translate(84)\">\n",
        b"<text class=\"kind\" x=\"150\" y=\"100\">cpu0.l2</text>\n",
        b"<text class=\"kind\" x=\"550\" y=\"100\">ACE</text>\n",
        b"</g>\n</g>\n<text class=\"wrong\"",
        b">R 1-4/4 v0</text>\n",
    ];
    assert!(rt; has_beside(rt.alloc(), bytes, &parts)?);
    Ok(())
}

#[test]
fn writes_svg(rt: HostRuntime) -> Result<(), Fail> {
    let refused: [&[u8]; 10] = [
        b"<svg xmlns=\"http://www.w3.org/2000/svg\" viewBox=\"0 0 880 406\" width=\"880\" height=\"406\">\n<style>\n",
        b">a&amp;b.trace</text>\n",
        b"<rect class=\"band\" x=\"8\" y=\"184\" width=\"864\" height=\"30\"/>\n",
        b"<line class=\"address\" x1=\"538\" y1=\"154\" x2=\"363\" y2=\"154\"/>\n",
        b"<title>granted to ReadUnique of port 0</title>\n",
        b"<text class=\"value\" x=\"16\" y=\"302\">expected</text>\n\
<text class=\"value\" x=\"84\" y=\"302\">UC</text>\n\
<text class=\"value\" x=\"16\" y=\"318\">got</text>\n\
<text class=\"value\" x=\"84\" y=\"318\">SD</text>\n",
        b"<line class=\"reason\" x1=\"100\" y1=\"130\" x2=\"112\" y2=\"130\"/>\n\
<line class=\"reason\" x1=\"864\" y1=\"130\" x2=\"852\" y2=\"130\"/>\n\
<text class=\"reason\" x=\"848\" y=\"134\">who has the line</text>\n",
        b"<text class=\"reason\" x=\"848\" y=\"158\">its transaction</text>\n",
        b"<text class=\"reason\" x=\"848\" y=\"182\">the grant</text>\n",
        b"<title>event 4, line 6 of the trace</title>\n<text class=\"number\" x=\"96\" y=\"206\">4</text>\n\
<rect class=\"stop\" x=\"345\" y=\"197\" width=\"10\" height=\"10\"/>\n\
<text class=\"stop-beside\" x=\"366\" y=\"206\">G p1 ReadUnique</text>\n</g>\n",
    ];
    let kept: [&[u8]; 7] = [
        b"<g><title>event 4, line 6 of the trace, to event 7, line 9 of the trace</title>\n\
<text class=\"number\" x=\"96\" y=\"182\">4-7</text>\n",
        b"<text class=\"label\" x=\"250\" y=\"174\">R 1-4/4 v0</text>\n",
        b"<text class=\"label\" x=\"250\" y=\"198\">RK ReadUnique UC</text>\n",
        b"<text class=\"beside\" x=\"166\" y=\"230\">D store v1</text>\n",
        b"<title>port 0 has the line in UC</title>\n<rect class=\"UC\" x=\"141\" y=\"202\" width=\"18\" height=\"24\"/>\n",
        b"<title>port 0 has the line in UD</title>\n<rect class=\"UD\" x=\"141\" y=\"226\" width=\"18\" height=\"24\"/>\n",
        b"<rect class=\"behind\" x=\"746\" y=\"226\" width=\"8\" height=\"24\"/>\n",
    ];
    assert!(rt; has(rt.alloc(), &two_grants(), Some(64), &refused)?);
    assert!(rt; has(rt.alloc(), &stored(), Some(64), &kept)?);
    assert!(rt; has(rt.alloc(), &stored(), None, &[b">MEM</text>\n"])?);
    let selection = events(4, 6, None);
    let gaps: [&[u8]; 3] = [
        b"<line class=\"gap\" x1=\"16\" y1=\"111\" x2=\"864\" y2=\"111\"/>\n\
<text class=\"gap\" x=\"16\" y=\"121\">2 left out</text>\n<g><title>event 4, line 6",
        b"<text class=\"gap\" x=\"16\" y=\"145\">3 left out</text>\n",
        b"viewBox=\"0 0 880 334\"",
    ];
    assert!(rt; has_selected(rt.alloc(), &stored(), Some(64), &selection, &gaps)?);
    assert!(rt;
        !has(
            rt.alloc(),
            &stored(),
            None,
            &[b"<title>port 0 has the line"]
        )?
    );
    Ok(())
}
