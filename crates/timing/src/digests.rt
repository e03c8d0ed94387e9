// Digests of findings.
ghost use Rattle.std.specs.Prelude.{◌≡◌, map, fold};
ghost use Rattle.rows.specs.Found.{tells};
ghost use Rattle.timing.specs.Digests.{digest_with};

use findings::Finding;

// By so much a digest is multiplied before a number is added.
const FACTOR: u64 = 6364136223846793005;

// The digest with one finding more: its first rest, or 0, and then its points.
fn with_finding(digest: u64, finding: &Finding) -> u64
    ensures { result ≡ digest_with digest (tells finding.now) }
{
    let rest = finding.verdict.rest().unwrap_or(0);
    let digest = digest.wrapping_mul(FACTOR).wrapping_add(u64::from(rest));
    digest
        .wrapping_mul(FACTOR)
        .wrapping_add(u64::from(finding.points))
}

/// The digest with a list of findings more, in their order.
pub(crate) fn with_findings(digest: u64, findings: &[Finding]) -> u64
    ensures { result ≡ fold digest_with digest (map tells findings.now) }
{
    findings
        .iter()
        .fold(digest, |digest, finding| with_finding(digest, finding))
}
