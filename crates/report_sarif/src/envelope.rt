/// What stands before the artifacts: the tool with its rules.
pub(crate) const TOOL: &str = "\
{\"$schema\":\"https://json.schemastore.org/sarif-2.1.0.json\",\"version\":\"2.1.0\",\"runs\":[{\
\"tool\":{\"driver\":{\"name\":\"surveyor\",\"version\":\"0.1.0\",\"rules\":[\
{\"id\":\"orange\",\"shortDescription\":{\"text\":\"An access that may leave its array.\"},\
\"help\":{\"text\":\"surveyor could not decide whether each access here lies inside its array. Look whether the index or \
the pointer can be out of range; where it cannot, bound it in a way that surveyor sees, or note why.\"},\
\"defaultConfiguration\":{\"level\":\"warning\"}},\
{\"id\":\"red\",\"shortDescription\":{\"text\":\"An access past which no run goes on.\"},\
\"help\":{\"text\":\"Each run that reaches this access ends here, since the access lies outside its array or its \
evaluation is undefined. Correct the index or the pointer.\"},\
\"defaultConfiguration\":{\"level\":\"error\"}}]}},\
\"columnKind\":\"unicodeCodePoints\",\"invocations\":[{\"executionSuccessful\":true}],\"artifacts\":[";

/// What stands between the artifacts and the results.
pub(crate) const RESULTS: &str = "],\"results\":[";

/// What ends the file.
pub(crate) const END: &str = "]}]}\n";
