// Bytes that are to be the body of a line: the line of a body, and why bytes are none.
#![tactic(auto)]

ghost use Rattle.std.specs.Prelude.{◌≡◌};
ghost use Rattle.frame.specs.Written.{Writes};
ghost use Rattle.bodies.specs.Bodies.{body_fault, is_body, why_of};

use frame::Written;

// Whether `s` is a body: its line passes the line rule. Bytes that are too many leave no line, which does not.
fn is_body(s: &[u8]) -> bool
    ensures { result ≡ is_body s.now }
{
    let mut line = [0u8; 82];
    let w = frame::finish(&mut line, s, s.len(), frame::fault(0));
    let n = w.length;
    line::line_refusal(&line[0..n]) == 0
}

// The fault of bytes that are no body.
fn fault_of(s: &[u8]) -> Written
    ensures { result ≡ body_fault s.now }
{
    if is_body(s) {
        return frame::fault(0);
    }
    frame::refuse(1, 1, 0)
}

// Writes the line of a body into `out` and answers its length; refuses with 1 bytes that are no body, then with 8 an output
// that is shorter than the line.
//
//     PIRTR,1,-0030    $PIRTR,1,-0030*52
pub fn write(body: &[u8], out: &mut [u8]) -> Written
    ensures { Writes (body_fault body.now) body.now out.old result out.new }
{
    let fault = fault_of(body);
    frame::finish(out, body, body.len(), fault)
}

// Why bytes are no body: there are none, there are too many, or one of them, at its place counted from 0, may not stand in a
// body.
#[derive(Clone, Copy, PartialEq, Eq, Debug)]
pub enum Why {
    Empty,
    Long,
    Other(usize),
}

// The first reason why `s` is no body; none where it is one.
//
//     PIRTR,1,*030    the byte at place 8 may not stand in a body
pub fn reason(s: &[u8]) -> Option<Why>
    ensures { result ≡ why_of s.now }
{
    if s.is_empty() {
        return Some(Why::Empty);
    }
    if 76 < s.len() {
        return Some(Why::Long);
    }
    s.iter().position(|&b| !line::may_stand(b)).map(Why::Other)
}
