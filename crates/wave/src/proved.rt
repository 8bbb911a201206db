ghost use Rattle.std.specs.Prelude.{◌≡◌, true};
ghost use Rattle.wave.specs.Accepted.{AcceptedExactly, FirstIsFirst};
ghost use Rattle.wave.specs.Back.{FilesReadBack, RoundTrip};

pub(crate) fn read_back() -> bool
    ensures answer { result ≡ true }
    ensures files_read_back { FilesReadBack }
    ensures round_trip { RoundTrip }
{
    true
}

pub(crate) fn accepted() -> bool
    ensures answer { result ≡ true }
    ensures accepted_exactly { AcceptedExactly }
    ensures first_is_first { FirstIsFirst }
{
    true
}
