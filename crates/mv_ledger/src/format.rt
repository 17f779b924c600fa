// How a show or an audit is asked for.
ghost use Rattle.std.specs.Prelude.{◌≡◌, MatchOption};
ghost use Rattle.mv_ledger.specs.Formats.{IsNoFormat, format_of};
ghost use Rattle.mv_ledger_state.specs.RecordText.{format_text};

/// How a report is wanted.
#[derive(Clone, Copy)]
pub enum Format {
    /// Line by line.
    Text,
    /// In one line of JSON.
    Json,
}

/// The format that the payload of a show or an audit record asks for.
pub fn read_format(payload: &[u8]) -> Option<Format>
    ensures { MatchOption result (IsNoFormat payload.now) (λ f. payload.now ≡ format_text (format_of f)) }
{
    match payload {
        [] => Some(Format::Text),
        [1] => Some(Format::Json),
        _ => None,
    }
}
