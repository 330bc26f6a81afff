// No code: what is claimed is in specs/Claims.antt, of the parts in specs/Parts.antt, of document 02's requests in
// specs/Requests.antt and specs/Bytes.antt; each is proved in one line in proofs/.
#![tactic(auto)]
