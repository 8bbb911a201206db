use anyhow::anyhow;
use std::fs;
use std::io::ErrorKind;
use wave::parts::TrackPart;

// The bytes of all track files, one after the other, and where each stands.
#[derive(Drop)]
pub struct TrackFiles {
    bytes: Vec<u8>,
    parts: [TrackPart; 8],
}

impl TrackFiles {
    pub(crate) fn bytes(&self) -> &[u8] {
        self.bytes.as_slice()
    }

    pub(crate) fn parts(&self) -> [TrackPart; 8] {
        self.parts
    }
}

// A track's file, if it is there.
fn read_track(rt: &HostRuntime, t: usize) -> anyhow::Result<Option<Vec<u8>>> {
    let name = format!(in rt.alloc(); "track{t}.wav")?;
    match fs::read(rt, name.as_str()) {
        Ok(bytes) => Ok(Some(bytes)),
        Err(e) if e.kind() == ErrorKind::NotFound => Ok(None),
        Err(e) => Err(anyhow!("{name} cannot be read: {e}")),
    }
}

// The files track0.wav to track7.wav; None where none of them is there.
pub(crate) fn read_tracks(rt: &HostRuntime) -> anyhow::Result<Option<TrackFiles>> {
    let mut bytes = Vec::new(rt.alloc());
    let mut parts = [None; 8];
    for (t, part) in parts.iter_mut().enumerate() {
        if let Some(file) = read_track(rt, t)? {
            *part = Some(TrackPart {
                start: bytes.len(),
                length: file.len(),
            });
            bytes.extend_from_slice(&file)?;
        }
    }
    if parts.iter().all(|part| part.is_none()) {
        return Ok(None);
    }
    let parts = parts.map(|part| part.unwrap_or(TrackPart::EMPTY));
    Ok(Some(TrackFiles { bytes, parts }))
}
