// What is told of traces as JSON.
use ace_explain_json::explanation_json;
use ace_explanation::explanation_within;
use ace_io::MemSource;
use ace_side_facts::SideFacts;
use ace_verdict::Limits;
use std::alloc::Global;
use std::test::Fail;

/// A second grant of a line.
const GRANTED_TWICE: &str =
    "ACE 2\nPORTS ALA\nAR 00 0 00000040 7 1 0 0\nAR 02 f 00000040 7 1 0 0\nG 00 R 0\nG 02 R f\n";

const TOLD: &str =
    "{\"file\":\"a \\\"b\\\"\\\\\",\"verdict\":\"refused\",\"line\":6,\"column\":null,\"event\":4,\"rule\":\"K12\",\"clause\":\"K12d\",\"title\":\"one grant for a line\",\"sentence\":\"no transaction on its line is granted\",\"message\":\"the line is still granted to another transaction\",\"record\":\"G\",\"port\":2,\"kind\":\"ReadUnique\",\"address\":\"00000040\",\"expected\":null,\"got\":null,\"note\":null,\"earlier\":0,\"evidence\":[{\"event\":1,\"last\":1,\"line\":3,\"what\":\"AR\",\"marks\":[],\"text\":\"port 0 asks for ReadUnique, identifier 0\",\"time\":null},{\"event\":2,\"last\":2,\"line\":4,\"what\":\"AR\",\"marks\":[],\"text\":\"port 2 asks for ReadUnique, identifier 15\",\"time\":null},{\"event\":3,\"last\":3,\"line\":5,\"what\":\"G\",\"marks\":[\"the grant\"],\"text\":\"port 0 is granted the line for its ReadUnique\",\"time\":null},{\"event\":4,\"last\":4,\"line\":6,\"what\":\"G\",\"marks\":[],\"text\":\"port 2 is granted the line for its ReadUnique\",\"time\":null}],\"states\":{\"0\":\"I\",\"2\":\"I\"},\"grant\":\"since event 3: port 0 ReadUnique (event 1); no snoop sent; 0 of 4 transfers\",\"time\":null,\"accepted\":null,\"outstanding\":null,\"side\":null}\n";

/// What is told of the trace under a name with quotes and a backslash is this.
fn is_told(alloc: Global, trace: &str, wanted: &str) -> Result<bool, Fail> {
    let mut source = MemSource::new(alloc, trace.as_bytes(), &[64], &[99])?;
    let explanation = explanation_within(alloc, &mut source, Limits::of_a_trace());
    drop(source);
    let facts = SideFacts::none(alloc);
    let told = explanation_json(alloc, b"a \"b\"\\", &facts, &explanation)?;
    drop(facts);
    let holds = told.as_slice() == wanted.as_bytes();
    drop(told);
    Ok(holds)
}

#[test]
fn a_refusal_has_its_object(rt: HostRuntime) -> Result<(), Fail> {
    let holds = is_told(rt.alloc(), GRANTED_TWICE, TOLD)?;
    assert!(rt; holds);
    Ok(())
}
