//! Each call on a graph that is worked by hand, and the rows of the table of recovery checkpoints.
use super::*;
use apx_dag::Dag;
use apx_json::read_app;
use std::alloc::Global;
use std::test::Fail;

/// Operator 3 reads nothing, 2 reads 3 twice, 1 reads 2, 0 reads 1 and is the sink.
const CHAIN: &str = r#"{"operators":[
{"name":"out","class":"store"},
{"name":"tally","class":"count"},
{"name":"join","class":"match"},
{"name":"read","class":"lines","properties":{"file":"a.txt","perWindow":2}}],
"streams":[
{"name":"s1","source":{"operatorName":"read","portName":"output"},"sinks":[{"operatorName":"join","portName":"left"},{"operatorName":"join","portName":"right"}]},
{"name":"s2","source":{"operatorName":"join","portName":"output"},"sinks":[{"operatorName":"tally","portName":"input"}]},
{"name":"s3","source":{"operatorName":"tally","portName":"output"},"sinks":[{"operatorName":"out","portName":"input"}]}]}"#;

#[test]
fn each_operator_has_its_readers_and_its_tree(rt: HostRuntime) -> Result<(), Fail> {
    let dag = Dag::of(rt.alloc(), read_app(rt.alloc(), CHAIN.as_bytes())?)?;
    for (op, reads, below) in [(0, 0, 0), (1, 1, 1), (2, 2, 3), (3, 4, 7)] {
        if op < dag.len() {
            assert_eq!(rt; readers(&dag, op), reads, "who reads {op}");
            assert_eq!(rt; tree(&dag, op), below, "what is downstream of {op}");
        }
    }
    Ok(())
}

#[test]
fn a_checkpoint_comes_as_far_as_its_readers_let_it(rt: HostRuntime) {
    assert_eq!(rt; advance_to(&[0], &[]), 0);
    assert_eq!(rt; advance_to(&[0], &[0]), 0);
    assert_eq!(rt; advance_to(&[0, 2, 4], &[]), 4);
    assert_eq!(rt; advance_to(&[0, 2, 4], &[4, 2]), 2);
    assert_eq!(rt; advance_to(&[0, 2, 4], &[3]), 2);
    assert_eq!(rt; advance_to(&[2, 4, 6], &[9, 5, 7]), 4);
    assert_eq!(rt; advance_to(&[4], &[4, 4]), 4);
}

#[test]
fn the_least_checkpoint_is_committed(rt: HostRuntime) {
    assert_eq!(rt; committed(&[4]), 4);
    assert_eq!(rt; committed(&[4, 2, 6]), 2);
}
