//! Writing a text: it is put piece by piece until all of it is taken or a put fails.

ghost use Rattle.std.specs.Prelude.{◌≡◌, ◌≤◌, OnOk, OnErr};
ghost use Rattle.wp_edge.specs.Faults.{Rose};
ghost use Rattle.wp_edge.specs.Put.{appended};
ghost use Rattle.wp_app.specs.Puts.{IsCut};

use wp_edge::{Sink, SinkError};

/// Puts the whole text. After an error the sink has a front of it.
pub fn put_all<K: Sink>(sink: &mut K, text: &[u8]) -> Result<(), SinkError>
    ensures ok { OnOk result (K.held sink.new ≡ appended (K.held sink.old) text.now) }
    ensures err { OnErr result (IsCut (K.held sink.old) (K.held sink.new) text.now) }
    ensures cause { OnErr result (Rose (K.faults sink.old) (K.faults sink.new)) }
    ensures later { K.faults sink.old ≤ K.faults sink.new }
{
    let mut done = 0;
    while done < text.len() {
        done += sink.put(&text[done..])? as usize;
    }
    Ok(())
}
