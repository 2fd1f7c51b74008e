//! Plays scripts: one answer for each line, or the prover's and the verifier's run side by side.
#![tactic(auto)]

mod helpers;
mod playing;
mod side_by_side;

pub use playing::{Sheet, run};
pub use side_by_side::{Stop, agree};

#[cfg(test)]
mod tests {
    use super::*;
    use std::test::Fail;

    #[test]
    fn a_bad_line_is_answered_in_its_place(rt: HostRuntime) -> Result<(), Fail> {
        let text = "make duplex bytes mirror 2 1\ntoss\n\nsample\nmake tape\nsample";
        let sheet = run(rt.alloc(), text)?;
        assert_eq!(rt;
            sheet.answers.as_str(),
            "ok\nbad-line\nok 0\nbad-line\nno-challenger\n"
        );
        assert_eq!(rt;
            sheet.messages.as_str(),
            "line 2: there is no call \"toss\"\nline 5: there is no challenger \"tape\"\n"
        );
        Ok(())
    }

    #[test]
    fn a_script_that_does_not_fit_is_not_rehearsed(rt: HostRuntime) -> Result<(), Fail> {
        let table = [
            (
                "held\nbits x",
                "line 2: this is no decimal number below 2^64: \"x\"",
            ),
            (
                "# no challenger\nsample  3",
                "line 2: words are separated by one space",
            ),
        ];
        for (text, want) in table {
            let Err(stop) = agree(rt.alloc(), text) else {
                return Err(Fail::new("it was rehearsed"));
            };
            let said = format!(in rt.alloc(); "{stop}")?;
            assert_eq!(rt; said.as_str(), want);
        }
        Ok(())
    }
}
