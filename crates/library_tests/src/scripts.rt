//! What a script says. The faults of scripts are shown by whole runs of the program.

use finvar_text::read_script;
use std::test::Fail;

const SCRIPT: &[u8] =
    b"ring R=7,(x,y),dp;matrix A[2][02]=0,-1,8,15;matrix B[2][2]=1,0,0,1;matrix P,S,I=invariant_ring(A,A);P;";

// The generators are those of the call, with their entries modulo 7.
#[test]
fn reads_the_generators_of_the_call(rt: HostRuntime) -> Result<(), Fail> {
    match read_script(rt.alloc(), SCRIPT) {
        Ok(script) => {
            assert_eq!(rt; script.characteristic, 7);
            assert_eq!(rt; script.names.len(), 2);
            assert_eq!(rt; script.names[1].bytes(), b"y".as_slice());
            assert_eq!(rt; script.gens.len(), 2);
            assert_eq!(rt; script.gens[1].cells.as_slice(), [0u16, 6, 1, 1].as_slice());
            Ok(())
        }
        Err(_) => Err(Fail::new("no script")),
    }
}
