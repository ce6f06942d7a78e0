//! Where texts are written to.

ghost use Rattle.std.specs.Prelude.{◌≡◌, ◌≤◌, ◌<◌, length, take, IfOk};
ghost use Rattle.std.specs.Result.{result_unwrap_or};
ghost use Rattle.outside.specs.{Counts.Rose, Sink.SinkView, Sink.appended, Sink.lowered, Sink.HasRoom};

/// The sink failed, which its count of faults shows. Nothing of the piece was taken.
#[derive(Clone, Copy, Debug, PartialEq, Eq)]
pub struct SinkFailed {}

/// What takes bytes in order, and may fail.
pub trait Sink {
    /// The bytes taken so far and for how many more there is room, where the sink tells them, and how often it failed.
    ghost shown: { Self → SinkView };

    /// Takes bytes from the front of a piece, and says how many. It takes none only where the count of faults rose in
    /// this call, be the answer `SinkFailed` or 0. Where the sink tells a room that holds the piece, the count stays.
    fn write(&mut self, piece: &[u8]) -> Result<usize, SinkFailed>
        requires { 0 < length piece.now }

        ensures within { IfOk result (λ taken. taken ≤ length piece.now) }
        ensures told { let front = take (result_unwrap_or result 0) piece.now in
            (shown self.new).told ≡ appended (shown self.old).told front }

        ensures faults { (shown self.old).faults ≤ (shown self.new).faults }
        ensures none_taken { result_unwrap_or result 0 ≡ 0 →
            Rose (shown self.old).faults (shown self.new).faults }

        ensures room { (shown self.new).room ≡ lowered (shown self.old).room (result_unwrap_or result 0) }
        ensures has_room { HasRoom (shown self.old).room (length piece.now) →
            (shown self.new).faults ≡ (shown self.old).faults };
}
