//! Plans of applications.
use crate::plan_text;
use apx_dag::Dag;
use apx_json::read_app;
use std::alloc::Global;
use std::process::Abort;
use std::test::Fail;

/// Words counted by three partitions, with the file's operators from the sink up.
const WORD_COUNT: &str =
    r#"{"operators":[{"name":"out","class":"store"},{"name":"tally one","class":"count","attributes":{"PARTITIONS":3}},{"name":"read","class":"lines","properties":{"file":"in.txt","perWindow":2}}],"streams":[{"name":"s1","source":{"operatorName":"read","portName":"output"},"sinks":[{"operatorName":"tally one","portName":"input"}]},{"name":"s2","source":{"operatorName":"tally one","portName":"output"},"sinks":[{"operatorName":"out","portName":"input"}]}]}"#;

const PLAN: &str = "operator 2 lines 1 read
  partition 0 mask 0 keys 0
operator 1 count 3 tally one
  partition 0 mask 3 keys 0 3
  partition 1 mask 3 keys 1
  partition 2 mask 3 keys 2
operator 0 store 1 out
  partition 0 mask 0 keys 0
";

fn assert_plan(rt: &impl Abort, alloc: Global, app: &str, plan: &str) -> Result<(), Fail> {
    let dag = Dag::of(alloc, read_app(alloc, app.as_bytes())?)?;
    let mut text = Vec::new(alloc);
    plan_text(&dag, &mut text)?;
    assert_eq!(rt; std::str::from_utf8(&text)?, plan);
    Ok(())
}

#[test]
fn three_partitions_share_the_classes(rt: HostRuntime) -> Result<(), Fail> {
    assert_plan(&rt, rt.alloc(), WORD_COUNT, PLAN)
}
