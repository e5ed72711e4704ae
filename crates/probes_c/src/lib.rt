// What C links of `probes`: each call under its name, with the same clauses.
#![tactic(auto)]

ghost use Rattle.std.specs.Prelude.{◌≡◌, not, eqb, ◌%◌, length};
ghost use Rattle.request.specs.Inner.Places.{head_of};
ghost use Rattle.probes.specs.Inner.Lines.{matching, LinesTo};
ghost use Rattle.probes.specs.Inner.Parts.{PartsTo};

#[unsafe(no_mangle)]
pub extern "C" fn pattern_lines(pattern: &[u8], fold: u32, block: &[u8], met: &mut u32) -> u32
    ensures { LinesTo pattern.now fold block.now result met.new }
{
    probes::pattern_lines(pattern, fold, block, met)
}

#[unsafe(no_mangle)]
pub extern "C" fn lines_as_patterns(block: &[u8], fold: u32, text: &[u8], met: &mut u32)
    ensures { met.new ≡ matching (not (eqb fold 0)) text.now block.now % 4294967296 }
{
    probes::lines_as_patterns(block, fold, text, met)
}

#[unsafe(no_mangle)]
pub extern "C" fn request_parts(
    request: &[u8],
    fields: &mut u32,
    values: &mut u32,
    lines: &mut u32,
) -> u32
    ensures { PartsTo request.now result fields.new values.new lines.new }
{
    probes::request_parts(request, fields, values, lines)
}

#[unsafe(no_mangle)]
pub extern "C" fn request_head(request: &[u8]) -> usize
    ensures { result ≡ length (head_of request.now) }
{
    probes::request_head(request)
}
