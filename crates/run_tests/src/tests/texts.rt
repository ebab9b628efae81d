//! The texts of refusals and of a recipe.

use arrayvec::ArrayVec;
use fix_bounds::{Base, Iv};
use job_file::{BatchRule, read_job};
use metamerism::{Deltas, Verdict};
use price_grid::Steps;
use shade_report::{Refusal, Shown, put_refusal, show_text};
use shelf_io::{Failed, MemSink};
use spectral_tables::{TableFault, TableRule};
use std::test::Fail;

#[test]
fn puts_refusals(rt: HostRuntime) -> Result<(), Fail> {
    let unbalanced = TableFault {
        row: 33,
        column: 2,
        rule: TableRule::Unbalanced,
    };
    for (refusal, want) in [
        (Refusal::Unreadable("none.csv"), "unreadable none.csv\n"),
        (Refusal::TooLong("flat.csv"), "refused flat.csv TooLong\n"),
        (
            Refusal::Table("w.csv", unbalanced),
            "refused w.csv row 33 column 2 Unbalanced\n",
        ),
        (
            Refusal::NoColumn("flat.csv", "zz"),
            "refused flat.csv no column zz\n",
        ),
    ] {
        let mut sink = MemSink::empty(rt.alloc(), 100)?;
        assert_eq!(rt; put_refusal(&mut sink, &refusal), Ok(()));
        assert_eq!(rt; sink.taken(), want.as_bytes(), "{want}");
    }
    let mut small = MemSink::empty(rt.alloc(), 11)?;
    let answer = put_refusal(&mut small, &Refusal::TooLong("flat.csv"));
    assert_eq!(rt; answer, Err(Failed));
    assert_eq!(rt; small.taken(), b"refused fla".as_slice());
    Ok(())
}

// Two dyes of one dyeing each, of which a step weighs a hundredth of a percent.
const JOB: &str = "\
version = 1
curves = \"flat.csv\"
substrate = \"p50\"
standard = \"p30\"
light = [{ weights = \"w.csv\", tolerance = 10 }]

[[dye]]
name = \"U\"
price = 3
step = 10
most = 1
dyeing = [{ units = 10, curve = \"p30\" }]

[[dye]]
name = \"V\"
price = 3
step = 10
most = 1
dyeing = [{ units = 10, curve = \"p30\" }]
";

const RECIPE: &str = "\
dye U steps 0 percent 0.000 grams 0.00
dye V steps 1 percent 0.010 grams 0.10
cost 30
light 1 DE 0.000000000000..0.000003316625 pass
pass
";

#[test]
fn shows_a_recipe(rt: HostRuntime) -> Result<(), Fail> {
    let read = read_job(rt.alloc(), JOB.as_bytes(), BatchRule::Without);
    assert!(rt; read.is_ok());
    if let Ok(job) = read {
        let mut steps = Steps::new();
        steps.push(0);
        steps.push(1);
        let mut deltas = ArrayVec::new();
        deltas.push(Iv::<Base>::of_ends(0, 3_316_625));
        let mut each = ArrayVec::new();
        each.push(Verdict::Pass);
        let shown = Shown {
            steps,
            cost: 30,
            deltas: Deltas { each: deltas },
            each,
            whole: Verdict::Pass,
        };
        assert_eq!(rt; (job.dye.len(), job.light.len()), (2, 1));
        let text = show_text(rt.alloc(), &job, &shown)?;
        assert_eq!(rt; text.as_slice(), RECIPE.as_bytes());
    }
    Ok(())
}
